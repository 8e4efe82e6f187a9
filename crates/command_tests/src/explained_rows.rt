//! Stuck and failing runs, each a script with its report, and what is to be said of it.

/// Rows, as `explained_tests` reads them.
pub(crate) const EXPLAINED_ROWS: &str = "\
~ no sender
channel a rendezvous
coroutine main
  receive a
end
report
0 await a 0 a.0 0
job 0 active
=
main 0 waits at line 3: receive a
  could be ended by: nobody
~ circle of two
channel a rendezvous
channel b rendezvous
coroutine worker
  receive b
  send a 1
end
coroutine main
  launch worker
  receive a
  send b 2
end
report
0 attach 1 to 0 tag 1 plain
0 await a 0 a.0 0
1 await b 0 b.0 0
job 0 active
job 1 active
=
main 0 waits at line 9: receive a
  could be ended by: worker 1
  circle of waits: main 0, worker 1, main 0
worker 1 waits at line 4: receive b
  could be ended by: main 0
~ no receiver
# nobody receives
channel a rendezvous

coroutine main
  # the element stays here
  send a 5   # for ever
end
report
0 offer a 0 5 a.0 0
job 0 active
element a 0 5 held
=
main 0 waits at line 6: send a 5
  could be ended by: nobody
element a 0 5 held: sent by main 0 at line 6: send a 5
~ buffer is full
channel a buffered 2
coroutine main
  send a 1
  send a 2
  send a 3
end
report
0 put a 0 1
0 put a 1 2
0 offer a 2 3 a.2 0
job 0 active
element a 0 1 held
element a 1 2 held
element a 2 3 held
=
main 0 waits at line 5: send a 3
  could be ended by: nobody
element a 0 1 held: sent by main 0 at line 3: send a 1
element a 1 2 held: sent by main 0 at line 4: send a 2
element a 2 3 held: sent by main 0 at line 5: send a 3
~ join of a child that waits
channel never unlimited
coroutine child
  yield
  receive never
end
coroutine main
  launch child as c
  join c
end
report
0 attach 1 to 0 tag 1 plain
0 await @1 0 @1.0 0
1 await never 0 never.0 0
job 0 active
job 1 active
=
main 0 waits at line 8: join c
  for the end of child 1
  could be ended by: child 1
child 1 waits at line 4: receive never
  could be ended by: nobody
~ lazy and not started
coroutine later
  yield
end
coroutine main
  lazy later
  result 4
end
report
0 attach 1 to 0 tag 1 lazy
0 endbody 0 4
job 0 completing
job 1 new
=
job 0 completing: main 0 has ended its lines, and waits for the end of later 1
job 1 new: later 1 was not started
~ forgotten close
channel a rendezvous
coroutine producer
  repeat 3
    send a 1
  end
end
coroutine main
  launch producer
  each a
    yield
  end
end
report
0 attach 1 to 0 tag 1 plain
0 await a 0 a.0 0
0 settle a.0 value 0 1
0 take a 1 1
0 take a 2 1
0 await a 3 a.3 0
1 hand a 0 1
1 offer a 1 1 a.1 0
1 settle a.1 sent 0
1 offer a 2 1 a.2 0
1 settle a.2 sent 0
1 endbody 1 0
1 finish 1 completed 0
1 close @1 0
1 gone 1
job 0 active
job 1 completed 0
=
main 0 waits at line 9: each a
  could be ended by: nobody
~ workers without end
channel jobs unlimited
coroutine worker
  each jobs
    yield
  end
end
coroutine main
  repeat 3
    launch worker
  end
  send jobs 1
end
report
0 attach 1 to 0 tag 1 plain
0 attach 2 to 0 tag 2 plain
0 attach 3 to 0 tag 3 plain
0 hand jobs 0 1
0 endbody 0 0
1 await jobs 0 jobs.0 0
1 settle jobs.0 value 0 1
1 await jobs 3 jobs.3 0
2 await jobs 1 jobs.1 0
3 await jobs 2 jobs.2 0
job 0 completing
job 1 active
job 2 active
job 3 active
=
worker 1 waits at line 3: each jobs
  could be ended by: nobody
worker 2 waits at line 3: each jobs
  could be ended by: nobody
worker 3 waits at line 3: each jobs
  could be ended by: nobody
job 0 completing: main 0 has ended its lines, and waits for the end of worker 1, worker 2, worker 3
~ select of two
channel a rendezvous
channel b rendezvous
coroutine other
  receive b
  receive b
end
coroutine main
  launch other
  send b 1
  select
    onreceive a
    onreceive b
  end
end
report
0 attach 1 to 0 tag 1 plain
0 hand b 0 1
0 empty a
0 empty b
0 await a 0 a.0 1
0 await b 1 a.0 2
1 await b 0 b.0 0
1 settle b.0 value 0 1
1 await b 2 b.2 0
job 0 active
job 1 active
=
main 0 waits at line 10: select
  could be ended by: nobody
other 1 waits at line 5: receive b
  could be ended by: nobody
~ failure cancels all
channel never rendezvous
coroutine sibling
  receive never
end
coroutine bad
  yield
  fail 7
end
coroutine main
  launch sibling
  launch bad
  result 1
end
report
0 attach 1 to 0 tag 1 plain
0 attach 2 to 0 tag 2 plain
0 endbody 0 1
1 await never 0 never.0 0
1 saw 1
1 withdraw never.0 cancelled
1 settle never.0 cancelled
1 endbody 1 0
1 finish 1 cancelled
1 close @1 0
1 gone 1
1 finish 0 failed 2
1 close @0 0
2 fail 7
2 cancel 2 own 2
2 cancel 0 child 2
2 cancel 1 parent
2 endbody 2 0
2 finish 2 failed 2
2 close @2 0
2 gone 2
job 0 failed 2
job 1 cancelled
job 2 failed 2
=
all coroutines ended, and every element was received
job 0 failed 2: main 0 failed by the failure of bad 2
job 2 failed 2: bad 2 failed at line 7: fail 7
  it cancelled: main 0, sibling 1
~ failure in a scope
channel never rendezvous
coroutine bad
  fail 9
end
coroutine good
  receive never
end
coroutine main
  scope
    launch good
    launch bad
  end
end
report
0 attach 3 to 0 tag 0 scope
0 attach 1 to 3 tag 1 plain
0 attach 2 to 3 tag 2 plain
0 endbody 3 0
0 await @3 0 @3.0 0
0 settle @3.0 closed 0 0
0 sawend 3 failed 2
0 cancel 0 own 2
0 endbody 0 0
0 finish 0 failed 2
0 close @0 0
1 await never 0 never.0 0
1 saw 1
1 withdraw never.0 cancelled
1 settle never.0 cancelled
1 endbody 1 0
1 finish 1 cancelled
1 close @1 0
1 gone 1
1 finish 3 failed 2
1 close @3 0
1 wakeclosed @3 0
1 gone 3
2 fail 9
2 cancel 2 own 2
2 cancel 3 child 2
2 cancel 1 parent
2 endbody 2 0
2 finish 2 failed 2
2 close @2 0
2 gone 2
job 0 failed 2
job 1 cancelled
job 2 failed 2
job 3 failed 2
=
all coroutines ended, and every element was received
job 0 failed 2: main 0 failed by the failure of bad 2
job 2 failed 2: bad 2 failed at line 3: fail 9
  it cancelled: job 3, good 1
job 3 failed 2: job 3 failed by the failure of bad 2
~ lost
channel a rendezvous
coroutine receiver
  receive a
end
coroutine sender
  send a 5
end
coroutine main
  launch receiver as r
  launch sender
  cancel r
end
report
0 attach 1 to 0 tag 1 plain
0 attach 2 to 0 tag 2 plain
0 cancel 1 request
0 endbody 0 0
1 await a 0 a.0 0
1 saw 1
1 settle a.0 undelivered 5
1 endbody 1 0
1 finish 1 cancelled
1 close @1 0
1 gone 1
1 finish 0 completed 0
1 close @0 0
2 hand a 0 5
2 endbody 2 0
2 finish 2 completed 0
2 close @2 0
2 gone 2
job 0 completed 0
job 1 cancelled
job 2 completed 0
element a 0 5 undelivered
=
element a 0 5 undelivered: sent by sender 2 at line 6: send a 5
  handed to receiver 1 at line 3: receive a
~ conflated
channel a conflated
coroutine main
  send a 1
  send a 2
  send a 3
  receive a
end
report
0 put a 0 1
0 put a 1 2
0 drop a 0 1
0 put a 2 3
0 drop a 1 2
0 take a 2 3
0 endbody 0 0
0 finish 0 completed 0
0 close @0 0
job 0 completed 0
element a 0 1 dropped
element a 1 2 dropped
=
element a 0 1 dropped: sent by main 0 at line 3: send a 1
  discarded by main 0 at line 4: send a 2
element a 1 2 dropped: sent by main 0 at line 4: send a 2
  discarded by main 0 at line 5: send a 3
~ spurned
script 2
channel a droplatest 1
coroutine main
  send a 1
  send a 2
end
report
0 put a 0 1
0 put a 1 2
0 spurn a 1 2
0 endbody 0 0
0 finish 0 completed 0
0 close @0 0
job 0 completed 0
element a 0 1 held
element a 1 2 spurned
=
element a 0 1 held: sent by main 0 at line 4: send a 1
element a 1 2 spurned: sent by main 0 at line 5: send a 2
  discarded by main 0 at line 5: send a 2
~ third turn
channel a rendezvous
coroutine giver
  repeat 2
    send a 8
  end
end
coroutine main
  launch giver
  repeat 3
    receive a
    yield
  end
end
report
0 attach 1 to 0 tag 1 plain
0 take a 0 8
0 take a 1 8
0 await a 2 a.2 0
1 offer a 0 8 a.0 0
1 settle a.0 sent 0
1 offer a 1 8 a.1 0
1 settle a.1 sent 0
1 endbody 1 0
1 finish 1 completed 0
1 close @1 0
1 gone 1
job 0 active
job 1 completed 0
=
main 0 waits at line 10: receive a
  could be ended by: nobody
~ cancelled channel
channel a buffered 2
coroutine main
  send a 1
  send a 2
  cancelchannel a
end
report
0 put a 0 1
0 put a 1 2
0 close a 0
0 void a
0 drain a 0 1
0 drain a 1 2
0 endbody 0 0
0 finish 0 completed 0
0 close @0 0
job 0 completed 0
element a 0 1 undelivered
element a 1 2 undelivered
=
element a 0 1 undelivered: sent by main 0 at line 3: send a 1
  discarded by main 0 at line 5: cancelchannel a
element a 1 2 undelivered: sent by main 0 at line 4: send a 2
  discarded by main 0 at line 5: cancelchannel a
~ scope waits for its child
channel a rendezvous
coroutine child
  send a 1
end
coroutine main
  scope
    launch child
  end
  receive a
end
report
0 attach 2 to 0 tag 0 scope
0 attach 1 to 2 tag 1 plain
0 endbody 2 0
0 await @2 0 @2.0 0
1 offer a 0 1 a.0 0
job 0 active
job 1 active
job 2 completing
element a 0 1 held
=
main 0 waits at line 8: end
  for the end of job 2, of the scope of line 6
  could be ended by: child 1
  circle of waits: main 0, child 1, main 0
child 1 waits at line 3: send a 1
  could be ended by: main 0
element a 0 1 held: sent by child 1 at line 3: send a 1
~ circle of three
channel a rendezvous
channel b rendezvous
channel c rendezvous
coroutine one
  receive a
  send b 1
end
coroutine two
  receive b
  send c 1
end
coroutine main
  launch one
  launch two
  receive c
  send a 1
end
report
0 attach 1 to 0 tag 1 plain
0 attach 2 to 0 tag 2 plain
0 await c 0 c.0 0
1 await a 0 a.0 0
2 await b 0 b.0 0
job 0 active
job 1 active
job 2 active
=
main 0 waits at line 15: receive c
  could be ended by: two 2
  circle of waits: main 0, two 2, one 1, main 0
one 1 waits at line 5: receive a
  could be ended by: main 0
two 2 waits at line 9: receive b
  could be ended by: one 1
~ results read after the join
channel results rendezvous
coroutine worker
  send results 3
end
coroutine main
  launch worker as w
  join w
  receive results
end
report
0 attach 1 to 0 tag 1 plain
0 await @1 0 @1.0 0
1 offer results 0 3 results.0 0
job 0 active
job 1 active
element results 0 3 held
=
main 0 waits at line 7: join w
  for the end of worker 1
  could be ended by: worker 1
  circle of waits: main 0, worker 1, main 0
worker 1 waits at line 3: send results 3
  could be ended by: main 0
element results 0 3 held: sent by worker 1 at line 3: send results 3
~ nothing left
channel a rendezvous
coroutine giver
  send a 1
end
coroutine main
  launch giver
  receive a
end
report
0 attach 1 to 0 tag 1 plain
0 take a 0 1
0 endbody 0 0
1 offer a 0 1 a.0 0
1 settle a.0 sent 0
1 endbody 1 0
1 finish 1 completed 0
1 close @1 0
1 gone 1
1 finish 0 completed 0
1 close @0 0
job 0 completed 0
job 1 completed 0
=
all coroutines ended, and every element was received
~ spawned
channel a unlimited
coroutine reader
  receive a
  receive a
end
coroutine main
  send a 1
  send a 2
  send a 3
end
spawn reader 2
report
0 attach 1 to 0 tag 1 plain
0 attach 2 to 0 tag 2 plain
0 put a 0 1
0 hand a 1 2
0 hand a 2 3
0 endbody 0 0
1 take a 0 1
1 await a 2 a.2 0
1 settle a.2 value 0 3
1 endbody 1 0
1 finish 1 completed 0
1 close @1 0
1 gone 1
2 await a 1 a.1 0
2 settle a.1 value 0 2
2 await a 3 a.3 0
job 0 completing
job 1 completed 0
job 2 active
=
reader 2 waits at line 4: receive a
  could be ended by: nobody
job 0 completing: main 0 has ended its lines, and waits for the end of reader 2
~ places are spent
channel a buffered 3 places 2
coroutine main
  send a 1
  send a 2
  send a 3
end
report
0 put a 0 1
0 put a 1 2
0 spent a
0 cancel 0 own 0
0 endbody 0 0
0 finish 0 failed 0
0 close @0 0
job 0 failed 0
element a 0 1 held
element a 1 2 held
=
element a 0 1 held: sent by main 0 at line 3: send a 1
element a 1 2 held: sent by main 0 at line 4: send a 2
job 0 failed 0: main 0 failed at line 5: send a 3
  it cancelled: nobody
~ failure awaited
coroutine bad
  fail 3
end
coroutine main
  supervisor
    async bad as b
    await b
  end
end
report
0 attach 2 to 0 tag 0 supervisor
0 attach 1 to 2 tag 1 plain
0 await @1 0 @1.0 0
0 settle @1.0 closed 0 0
0 sawend 1 failed 1
0 cancel 2 own 1
0 endbody 2 0
0 finish 2 failed 1
0 close @2 0
0 gone 2
0 receiveclosed @2 0
0 sawend 2 failed 1
0 cancel 0 own 1
0 endbody 0 0
0 finish 0 failed 1
0 close @0 0
1 fail 3
1 cancel 1 own 1
1 endbody 1 0
1 finish 1 failed 1
1 close @1 0
1 wakeclosed @1 0
1 gone 1
job 0 failed 1
job 1 failed 1
job 2 failed 1
=
all coroutines ended, and every element was received
job 0 failed 1: main 0 failed by the failure of bad 1
job 1 failed 1: bad 1 failed at line 2: fail 3
  it cancelled: nobody
job 2 failed 1: job 2 failed by the failure of bad 1
";
