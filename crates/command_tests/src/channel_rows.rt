//! Scripts on channels that keep no element, and whose places are given out.

/// Rows, as `tests` reads them.
pub(crate) const CHANNEL_ROWS: &str = "\
# A receiver waits for ever.
channel a rendezvous
coroutine main
receive a
end
= 4 report
0 await a 0 a.0 0
job 0 active
# A sender waits for ever, and its element is held.
channel a rendezvous
coroutine main
send a 4294967295
end
= 4 report
0 offer a 0 4294967295 a.0 0
job 0 active
element a 0 4294967295 held
# The hand goes to the receiver that stands first.
channel a rendezvous
coroutine r
receive a
end
coroutine s
send a 5
end
coroutine main
end
spawn r
spawn r
spawn s
= 4 report
0 attach 1 to 0 tag 1 plain
0 attach 2 to 0 tag 2 plain
0 attach 3 to 0 tag 3 plain
0 endbody 0 0
1 await a 0 a.0 0
1 settle a.0 value 0 5
1 endbody 1 0
1 finish 1 completed 0
1 close @1 0
1 gone 1
2 await a 1 a.1 0
3 hand a 0 5
3 endbody 3 0
3 finish 3 completed 0
3 close @3 0
3 gone 3
job 0 completing
job 1 completed 0
job 2 active
job 3 completed 0
# Two waiting senders are received in their order, and two channels keep apart.
channel a rendezvous
channel b rendezvous
coroutine p
send a 1
send b 2
end
coroutine q
send a 3
receive b
end
coroutine main
receive a
receive a
end
spawn p
spawn q
= 0 report
0 attach 1 to 0 tag 1 plain
0 attach 2 to 0 tag 2 plain
0 await a 0 a.0 0
0 settle a.0 value 0 1
0 take a 1 3
0 endbody 0 0
1 hand a 0 1
1 offer b 0 2 b.0 0
1 settle b.0 sent 0
1 endbody 1 0
1 finish 1 completed 0
1 close @1 0
1 gone 1
1 finish 0 completed 0
1 close @0 0
2 offer a 1 3 a.1 0
2 settle a.1 sent 0
2 take b 0 2
2 endbody 2 0
2 finish 2 completed 0
2 close @2 0
2 gone 2
job 0 completed 0
job 1 completed 0
job 2 completed 0
# A fresh frame runs its first line in the same poll; values pass through the registers.
channel a rendezvous
channel b rendezvous
coroutine m
receive a
send b it
receive a
send b sum
end
coroutine main
send a 4294967295
receive b
send a 2
receive b
result sum
end
spawn m
= 0 report
0 attach 1 to 0 tag 1 plain
0 offer a 0 4294967295 a.0 0
0 settle a.0 sent 0
0 take b 0 4294967295
0 offer a 1 2 a.1 0
0 settle a.1 sent 0
0 take b 1 1
0 endbody 0 0
0 finish 0 completed 0
0 close @0 0
1 take a 0 4294967295
1 offer b 0 4294967295 b.0 0
1 settle b.0 sent 0
1 take a 1 2
1 offer b 1 1 b.1 0
1 settle b.1 sent 0
1 endbody 1 0
1 finish 1 completed 0
1 close @1 0
1 gone 1
job 0 completed 0
job 1 completed 0
# Places run out on a send.
channel a rendezvous places 1
coroutine p
send a 1
send a 2
end
coroutine main
receive a
end
spawn p
= 1 report
0 attach 1 to 0 tag 1 plain
0 await a 0 a.0 0
0 settle a.0 value 0 1
0 endbody 0 0
1 hand a 0 1
1 spent a
1 cancel 1 own 1
1 cancel 0 child 1
1 endbody 1 0
1 finish 1 failed 1
1 close @1 0
1 gone 1
1 finish 0 failed 1
1 close @0 0
job 0 failed 1
job 1 failed 1
# Places run out on a receive; two instances come from one line.
channel a rendezvous places 1
coroutine r
receive a
end
coroutine main
end
spawn r 2
= 1 channels-and-jobs
1 await a 0 a.0 0
1 saw 1
1 withdraw a.0 cancelled
1 settle a.0 cancelled
2 spent a
job 0 failed 2
job 1 cancelled
job 2 failed 2
# Places run out on a receive, and who is cancelled by that runs its wait to its end.
channel a rendezvous places 1
coroutine r
receive a
end
coroutine k
close a
end
coroutine main
end
spawn r 2
spawn k
= 1 channels-and-jobs
1 await a 0 a.0 0
1 saw 1
1 settle a.0 cancelled
2 spent a
3 close a 0
3 wakeclosed a 0
job 0 failed 2
job 1 cancelled
job 2 failed 2
job 3 cancelled
# The places of a select's channel are given out.
channel a rendezvous places 1
coroutine r
receive a
end
coroutine m
select
onreceive a
end
end
coroutine main
end
spawn r
spawn m
= 1 channels
1 await a 0 a.0 0
1 saw 1
1 withdraw a.0 cancelled
1 settle a.0 cancelled
2 empty a
2 spent a
";
