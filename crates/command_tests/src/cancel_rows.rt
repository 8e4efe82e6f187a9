//! Scripts in which who waits is cancelled.

/// Rows, as `tests` reads them.
pub(crate) const CANCEL_ROWS: &str = "\
# A receiver that was cancelled before it ran makes no call; one that waits is withdrawn.
channel a rendezvous
coroutine w
receive a
end
coroutine p
launch w as k
yield
cancel k
yield
end
coroutine r
receive a
receive a
end
coroutine main
launch r as j
launch p
cancel j
end
= 0 report
0 attach 1 to 0 tag 1 plain
0 attach 2 to 0 tag 2 plain
0 cancel 1 request
0 endbody 0 0
1 await a 0 a.0 0
1 saw 1
1 withdraw a.0 cancelled
1 settle a.0 cancelled
1 endbody 1 0
1 finish 1 cancelled
1 close @1 0
1 gone 1
2 attach 3 to 2 tag 3 plain
2 cancel 3 request
2 endbody 2 0
2 finish 2 completed 0
2 close @2 0
2 gone 2
2 finish 0 completed 0
2 close @0 0
3 await a 1 a.1 0
3 saw 3
3 withdraw a.1 cancelled
3 settle a.1 cancelled
3 endbody 3 0
3 finish 3 cancelled
3 close @3 0
3 gone 3
job 0 completed 0
job 1 cancelled
job 2 completed 0
job 3 cancelled
# A send that was taken, then cancelled before its dispatch, is settled as cancelled though its element is received.
channel a rendezvous
coroutine p
send a 5
send a 6
end
coroutine r
receive a
end
coroutine main
launch p as j
launch r
cancel j
end
= 0 report
0 attach 1 to 0 tag 1 plain
0 attach 2 to 0 tag 2 plain
0 cancel 1 request
0 endbody 0 0
1 offer a 0 5 a.0 0
1 saw 1
1 settle a.0 cancelled
1 endbody 1 0
1 finish 1 cancelled
1 close @1 0
1 gone 1
1 finish 0 completed 0
1 close @0 0
2 take a 0 5
2 endbody 2 0
2 finish 2 completed 0
2 close @2 0
2 gone 2
job 0 completed 0
job 1 cancelled
job 2 completed 0
# A receiver is resumed, then cancelled, then dispatched: it gives its element up.
channel a rendezvous
coroutine r
receive a
end
coroutine s
send a 5
end
coroutine main
launch r as j
launch s
cancel j
end
= 0 channels-and-jobs
1 await a 0 a.0 0
1 saw 1
1 settle a.0 undelivered 5
2 hand a 0 5
job 0 completed 0
job 1 cancelled
job 2 completed 0
element a 0 5 undelivered
# A receiver is cancelled before it is resumed: the next one is handed the element.
channel a rendezvous
coroutine r
receive a
end
coroutine s
send a 5
end
coroutine main
launch r as j
launch r
cancel j
launch s
end
= 0 channels-and-jobs
1 await a 0 a.0 0
1 saw 1
1 withdraw a.0 cancelled
1 settle a.0 cancelled
2 await a 1 a.1 0
2 settle a.1 value 0 5
3 hand a 1 5
job 0 completed 0
job 1 cancelled
job 2 completed 0
job 3 completed 0
# A sender that waits is cancelled: its element is undelivered.
channel a rendezvous
coroutine p
send a 5
end
coroutine main
launch p as j
cancel j
end
= 0 channels-and-jobs
1 offer a 0 5 a.0 0
1 saw 1
1 withdraw a.0 cancelled
1 settle a.0 cancelled
job 0 completed 0
job 1 cancelled
element a 0 5 undelivered
# A select that is cancelled while it waits gives up each of its clauses; its element is withdrawn.
channel a rendezvous
channel b rendezvous
coroutine s
select
onsend a 7
onreceive b
end
end
coroutine r
receive a
end
coroutine main
launch s as j
yield
cancel j
launch r
end
= 4 report
0 attach 1 to 0 tag 1 plain
0 cancel 1 request
0 attach 2 to 0 tag 2 plain
0 endbody 0 0
1 full a 7
1 empty b
1 offer a 0 7 a.0 1
1 await b 0 a.0 2
1 saw 1
1 withdraw a.0 cancelled
1 settle a.0 cancelled
1 endbody 1 0
1 finish 1 cancelled
1 close @1 0
1 gone 1
2 await a 1 a.1 0
job 0 completing
job 1 cancelled
job 2 active
element a 0 7 withdrawn
# A select that was resolved before its Job was cancelled gives up what it was handed.
channel a rendezvous
channel b rendezvous
coroutine s
select
onreceive a
onreceive b
end
end
coroutine t
send b 4
end
coroutine main
launch s as j
launch t
cancel j
end
= 0 report
0 attach 1 to 0 tag 1 plain
0 attach 2 to 0 tag 2 plain
0 cancel 1 request
0 endbody 0 0
1 empty a
1 empty b
1 await a 0 a.0 1
1 await b 0 a.0 2
1 saw 1
1 settle a.0 undelivered 4
1 endbody 1 0
1 finish 1 cancelled
1 close @1 0
1 gone 1
1 finish 0 completed 0
1 close @0 0
2 hand b 0 4
2 endbody 2 0
2 finish 2 completed 0
2 close @2 0
2 gone 2
job 0 completed 0
job 1 cancelled
job 2 completed 0
element b 0 4 undelivered
# A scope that is cancelled from outside waits for its children before the coroutine unwinds.
channel a rendezvous
coroutine w
receive a
end
coroutine p
scope
launch w
yield
yield
yield
end
end
coroutine main
launch p as j
yield
yield
yield
cancel j
end
= 0 report
0 attach 1 to 0 tag 1 plain
0 cancel 1 request
0 cancel 3 parent
0 cancel 2 parent
0 endbody 0 0
1 attach 3 to 1 tag 1 scope
1 attach 2 to 3 tag 2 plain
1 saw 3
1 endbody 3 0
1 await @3 0 @3.0 0
1 settle @3.0 closed 0 0
1 sawend 3 cancelled
1 endbody 1 0
1 finish 1 cancelled
1 close @1 0
1 gone 1
1 finish 0 completed 0
1 close @0 0
2 await a 0 a.0 0
2 saw 2
2 withdraw a.0 cancelled
2 settle a.0 cancelled
2 endbody 2 0
2 finish 2 cancelled
2 close @2 0
2 gone 2
2 finish 3 cancelled
2 close @3 0
2 wakeclosed @3 0
2 gone 3
job 0 completed 0
job 1 cancelled
job 2 cancelled
job 3 cancelled
";
