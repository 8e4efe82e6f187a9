//! Scripts with a select.

/// Rows, as `tests` reads them.
pub(crate) const SELECT_ROWS: &str = "\
# A select takes the first of its clauses that is ready.
channel a unlimited
channel b unlimited
coroutine main
send a 1
send b 2
select
onreceive b
onreceive a
end
select
onreceive b
onreceive a
end
end
= 0 channels
0 put a 0 1
0 put b 0 2
0 take b 0 2
0 empty b
0 take a 0 1
# A select takes the first of its clauses that is ready, also in the other order.
channel a unlimited
channel b unlimited
coroutine main
send a 1
send b 2
select
onreceive a
onreceive b
end
select
onreceive a
onreceive b
end
end
= 0 channels
0 put a 0 1
0 put b 0 2
0 take a 0 1
0 empty a
0 take b 0 2
# A select that waits is resolved by who comes first; the next one waits.
channel a rendezvous
channel b rendezvous
coroutine m
select
onreceive a
onreceive b
end
end
coroutine p
send a 1
end
coroutine q
send b 2
end
coroutine main
end
spawn m
spawn p
spawn q
= 4 channels-and-jobs
1 empty a
1 empty b
1 await a 0 a.0 1
1 await b 0 a.0 2
1 settle a.0 value 1 1
2 hand a 0 1
3 offer b 1 2 b.1 0
job 0 completing
job 1 completed 0
job 2 completed 0
job 3 active
element b 1 2 held
# A select of two sends: one is received, the other is withdrawn.
channel a rendezvous
channel b rendezvous
coroutine r
receive b
end
coroutine main
select
onsend a 1
onsend b 2
end
end
spawn r
= 0 channels
0 full a 1
0 full b 2
0 offer a 0 1 a.0 1
0 offer b 0 2 a.0 2
0 settle a.0 sent 2
1 take b 0 2
element a 0 1 withdrawn
# A select that waits is resolved at its second clause; the offer at the first is withdrawn by that, and nobody is handed it.
channel a rendezvous
channel b rendezvous
coroutine s
select
onsend a 7
onreceive b
end
end
coroutine r
send b 1
receive a
end
coroutine main
launch s
launch r
end
= 4 report
0 attach 1 to 0 tag 1 plain
0 attach 2 to 0 tag 2 plain
0 endbody 0 0
1 full a 7
1 empty b
1 offer a 0 7 a.0 1
1 await b 0 a.0 2
1 settle a.0 value 2 1
1 endbody 1 0
1 finish 1 completed 0
1 close @1 0
1 gone 1
2 hand b 0 1
2 await a 1 a.1 0
job 0 completing
job 1 completed 0
job 2 active
element a 0 7 withdrawn
# The order of the clauses decides, not that of the partners; the second select finds what the first left.
channel a buffered 1
channel b buffered 1
coroutine main
send b 2
send a 1
select
onreceive a
onreceive b
end
select
onreceive a
onreceive b
end
result sum
end
= 0 report
0 put b 0 2
0 put a 0 1
0 take a 0 1
0 empty a
0 take b 0 2
0 endbody 0 3
0 finish 0 completed 3
0 close @0 3
job 0 completed 3
# A closed clause is chosen where no clause before it is ready; a later ready one is not looked at.
channel a rendezvous
channel b buffered 1
coroutine main
send b 2
close a
select
onreceive a
onreceive b
end
select
onreceive b
onreceive a
end
select
onsend a 9
onreceive b
end
end
= 0 report
0 put b 0 2
0 close a 0
0 receiveclosed a 0
0 take b 0 2
0 sendclosed a 9 0
0 endbody 0 0
0 finish 0 completed 0
0 close @0 0
job 0 completed 0
# A select's offer on a buffered channel is admitted when room comes, and the select ends so.
channel a buffered 1
channel b rendezvous
coroutine s
select
onsend a 2
onreceive b
end
result 1
end
coroutine main
send a 1
launch s as j
yield
receive a
receive a
end
= 0 report
0 put a 0 1
0 attach 1 to 0 tag 1 plain
0 take a 0 1
0 admit a 1
0 take a 1 2
0 endbody 0 0
1 full a 2
1 empty b
1 offer a 1 2 a.1 1
1 await b 0 a.1 2
1 settle a.1 sent 1
1 endbody 1 1
1 finish 1 completed 1
1 close @1 1
1 gone 1
1 finish 0 completed 0
1 close @0 0
job 0 completed 0
job 1 completed 1
# A cancelled channel ends a select that offered there as cancelled.
channel a rendezvous
channel b rendezvous
coroutine s
select
onsend a 2
onreceive b
end
result 1
end
coroutine main
launch s
yield
cancelchannel a
end
= 0 report
0 attach 1 to 0 tag 1 plain
0 close a 0
0 void a
0 drain a 0 2
0 endbody 0 0
1 full a 2
1 empty b
1 offer a 0 2 a.0 1
1 await b 0 a.0 2
1 settle a.0 cancelled
1 cancel 1 request
1 endbody 1 0
1 finish 1 cancelled
1 close @1 0
1 gone 1
1 finish 0 completed 0
1 close @0 0
job 0 completed 0
job 1 cancelled
element a 0 2 undelivered
# each with a select inside, and a repeat round it.
channel a buffered 2
channel b buffered 2
coroutine p
repeat 2
send a 1
send b 2
end
close a
close b
end
coroutine main
launch p
each a
select
onreceive b
end
end
result sum
end
= 0 report
0 attach 1 to 0 tag 1 plain
0 await a 0 a.0 0
0 settle a.0 value 0 1
0 take b 0 2
0 take a 1 1
0 take b 1 2
0 receiveclosed a 0
0 endbody 0 6
0 finish 0 completed 6
0 close @0 6
1 hand a 0 1
1 put b 0 2
1 put a 1 1
1 put b 1 2
1 close a 0
1 close b 0
1 endbody 1 0
1 finish 1 completed 0
1 close @1 0
1 gone 1
job 0 completed 6
job 1 completed 0
";
