//! Scripts on channels that keep elements.

/// Rows, as `tests` reads them.
pub(crate) const BUFFER_ROWS: &str = "\
# A buffered channel keeps two elements; the third send waits.
channel a buffered 2
coroutine main
send a 1
send a 2
send a 3
end
= 4 channels
0 put a 0 1
0 put a 1 2
0 offer a 2 3 a.2 0
element a 0 1 held
element a 1 2 held
element a 2 3 held
# A receive from a full channel admits the send that waits.
channel a buffered 2
coroutine p
send a 1
send a 2
send a 3
end
coroutine c
yield
yield
receive a
end
coroutine main
end
spawn p
spawn c
= 0 channels
1 put a 0 1
1 put a 1 2
1 offer a 2 3 a.2 0
1 settle a.2 sent 0
2 take a 0 1
2 admit a 2
element a 1 2 held
element a 2 3 held
# A conflated channel keeps its newest element alone.
channel a conflated
coroutine main
send a 1
send a 2
send a 3
receive a
end
= 0 channels
0 put a 0 1
0 put a 1 2
0 drop a 0 1
0 put a 2 3
0 drop a 1 2
0 take a 2 3
element a 0 1 dropped
element a 1 2 dropped
# A channel that does not keep its latest holds what came first; an empty line may stand before the version.

script 2
channel a droplatest 2
coroutine main
send a 1
send a 2
send a 3
trysend a 4
receive a
send a 5
end
= 0 channels
0 put a 0 1
0 put a 1 2
0 put a 2 3
0 spurn a 2 3
0 put a 3 4
0 spurn a 3 4
0 take a 0 1
0 put a 4 5
element a 1 2 held
element a 2 3 spurned
element a 3 4 spurned
element a 4 5 held
# A closed channel gives out what it holds, and then answers each call that it is closed.
channel a buffered 2
coroutine main
send a 7
send a 8
close a
close a
receive a
receive a
receive a
send a 9
end
= 0 channels
0 put a 0 7
0 put a 1 8
0 close a 0
0 alreadyclosed a 0
0 take a 0 7
0 take a 1 8
0 receiveclosed a 0
0 sendclosed a 9 0
# A cancelled channel gives its elements up, and ends who waits to send as cancelled.
channel a buffered 1
coroutine p
send a 1
send a 2
end
coroutine k
yield
cancelchannel a
end
coroutine main
end
spawn p
spawn k
= 0 channels-and-jobs
1 put a 0 1
1 offer a 1 2 a.1 0
1 settle a.1 cancelled
2 close a 0
2 void a
2 drain a 0 1
2 drain a 1 2
job 0 completed 0
job 1 cancelled
job 2 completed 0
element a 0 1 undelivered
element a 1 2 undelivered
# An each receives until its channel is closed and empty.
channel a unlimited
coroutine main
send a 3
send a 4
close a
each a
yield
end
result sum
end
= 0 report
0 put a 0 3
0 put a 1 4
0 close a 0
0 take a 0 3
0 take a 1 4
0 receiveclosed a 0
0 endbody 0 7
0 finish 0 completed 7
0 close @0 7
job 0 completed 7
# Calls that do not wait find a full, an empty and a closed channel.
channel a rendezvous
coroutine main
trysend a 1
tryreceive a
close a
tryreceive a
trysend a 2
end
= 0 channels
0 full a 1
0 empty a
0 close a 0
0 tryreceiveclosed a 0
0 trysendclosed a 2 0
# A full drop-oldest channel loses its oldest element, and only while it is too long.
channel a dropoldest 2
coroutine main
send a 1
send a 2
send a 3
receive a
send a 4
trysend a 5
receive a
receive a
tryreceive a
end
= 0 report
0 put a 0 1
0 put a 1 2
0 put a 2 3
0 drop a 0 1
0 take a 1 2
0 put a 3 4
0 put a 4 5
0 drop a 2 3
0 take a 3 4
0 take a 4 5
0 empty a
0 endbody 0 0
0 finish 0 completed 0
0 close @0 0
job 0 completed 0
element a 0 1 dropped
element a 2 3 dropped
# A cancelled channel wakes its receivers before it is voided, and gives up every element.
channel a buffered 1
channel b rendezvous
coroutine r
receive b
end
coroutine p
send a 1
send a 2
send a 3
end
coroutine main
yield
yield
yield
cancelchannel b
cancelchannel a
cancelchannel a
trysend a 4
tryreceive a
end
spawn r
spawn p
= 0 report
0 attach 1 to 0 tag 1 plain
0 attach 2 to 0 tag 2 plain
0 close b 0
0 wakeclosed b 0
0 void b
0 close a 0
0 void a
0 drain a 0 1
0 drain a 1 2
0 alreadyclosed a 0
0 trysendclosed a 4 0
0 tryreceiveclosed a 0
0 endbody 0 0
0 finish 0 completed 0
0 close @0 0
1 await b 0 b.0 0
1 settle b.0 closed 0 0
1 endbody 1 0
1 finish 1 completed 0
1 close @1 0
1 gone 1
2 put a 0 1
2 offer a 1 2 a.1 0
2 settle a.1 cancelled
2 cancel 2 request
2 endbody 2 0
2 finish 2 cancelled
2 close @2 0
2 gone 2
job 0 completed 0
job 1 completed 0
job 2 cancelled
element a 0 1 undelivered
element a 1 2 undelivered
# A withdrawn sender gives its turn on: the next one is admitted.
channel a buffered 1
coroutine p
send a 1
send a 2
end
coroutine q
send a 3
end
coroutine main
launch p as j
launch q
yield
yield
yield
cancel j
yield
yield
receive a
receive a
end
= 0 report
0 attach 1 to 0 tag 1 plain
0 attach 2 to 0 tag 2 plain
0 cancel 1 request
0 take a 0 1
0 admit a 2
0 take a 2 3
0 endbody 0 0
0 finish 0 completed 0
0 close @0 0
1 put a 0 1
1 offer a 1 2 a.1 0
1 saw 1
1 withdraw a.1 cancelled
1 settle a.1 cancelled
1 endbody 1 0
1 finish 1 cancelled
1 close @1 0
1 gone 1
2 offer a 2 3 a.2 0
2 settle a.2 sent 0
2 endbody 2 0
2 finish 2 completed 0
2 close @2 0
2 gone 2
job 0 completed 0
job 1 cancelled
job 2 completed 0
element a 1 2 undelivered
# trysend on a channel whose places are given out unwinds, though it is full too.
channel a rendezvous places 1
coroutine p
send a 1
end
coroutine main
yield
yield
trysend a 2
end
spawn p
= 1 report
0 attach 1 to 0 tag 1 plain
0 spent a
0 cancel 0 own 0
0 cancel 1 parent
0 endbody 0 0
1 offer a 0 1 a.0 0
1 saw 1
1 withdraw a.0 cancelled
1 settle a.0 cancelled
1 endbody 1 0
1 finish 1 cancelled
1 close @1 0
1 gone 1
1 finish 0 failed 0
1 close @0 0
job 0 failed 0
job 1 cancelled
element a 0 1 undelivered
";
