//! Scripts that launch, start and cancel Jobs, and whose coroutines fail.

/// Rows, as `tests` reads them.
pub(crate) const JOB_ROWS: &str = "\
# A lazy coroutine that is cancelled before it was started never runs; one that is started does.
coroutine w
result 5
end
coroutine main
lazy w as x
cancel x
lazy w as y
start y
end
= 0 report
0 attach 1 to 0 tag 1 lazy
0 cancel 1 request
0 attach 2 to 0 tag 2 lazy
0 start 2
0 endbody 0 0
1 saw 1
1 endbody 1 0
1 finish 1 cancelled
1 close @1 0
1 gone 1
2 endbody 2 5
2 finish 2 completed 5
2 close @2 5
2 gone 2
2 finish 0 completed 0
2 close @0 0
job 0 completed 0
job 1 cancelled
job 2 completed 5
# A lazy child that is never started keeps its parent.
coroutine w
end
coroutine main
lazy w as x
result 1
end
= 4 report
0 attach 1 to 0 tag 1 lazy
0 endbody 0 1
job 0 completing
job 1 new
# Woken tags stand in the queue before the own tag.
coroutine w
result 3
end
coroutine main
lazy w as x
lazy w as y
start y
start x
yield
result 4
end
spawn w
= 0 report
0 attach 1 to 0 tag 1 plain
0 attach 2 to 0 tag 2 lazy
0 attach 3 to 0 tag 3 lazy
0 start 3
0 start 2
0 endbody 0 4
0 finish 0 completed 4
0 close @0 4
1 endbody 1 3
1 finish 1 completed 3
1 close @1 3
1 gone 1
2 endbody 2 3
2 finish 2 completed 3
2 close @2 3
2 gone 2
3 endbody 3 3
3 finish 3 completed 3
3 close @3 3
3 gone 3
job 0 completed 4
job 1 completed 3
job 2 completed 3
job 3 completed 3
# A repeat launches with one name: the name is the latest Job.
coroutine w
yield
result 5
end
coroutine main
repeat 3
async w as j
end
cancel j
await j
end
= 1 report
0 attach 1 to 0 tag 1 plain
0 attach 2 to 0 tag 2 plain
0 attach 3 to 0 tag 3 plain
0 cancel 3 request
0 receiveclosed @3 0
0 sawend 3 cancelled
0 cancel 0 request
0 endbody 0 0
0 finish 0 cancelled
0 close @0 0
1 endbody 1 5
1 finish 1 completed 5
1 close @1 5
1 gone 1
2 endbody 2 5
2 finish 2 completed 5
2 close @2 5
2 gone 2
3 endbody 3 5
3 finish 3 cancelled
3 close @3 0
3 gone 3
job 0 cancelled
job 1 completed 5
job 2 completed 5
job 3 cancelled
# A cancel pass goes to the newest child first, below Jobs that are cancelled already too.
coroutine leaf
yield
yield
yield
end
coroutine mid
launch leaf as j
launch leaf
cancel j
yield
yield
end
coroutine main
launch mid as m
launch leaf
yield
cancel m
end
= 0 report
0 attach 1 to 0 tag 1 plain
0 attach 4 to 0 tag 4 plain
0 cancel 1 request
0 cancel 3 parent
0 endbody 0 0
1 attach 2 to 1 tag 2 plain
1 attach 3 to 1 tag 3 plain
1 cancel 2 request
1 saw 1
1 endbody 1 0
1 finish 1 cancelled
1 close @1 0
1 gone 1
2 saw 2
2 endbody 2 0
2 finish 2 cancelled
2 close @2 0
2 gone 2
3 saw 3
3 endbody 3 0
3 finish 3 cancelled
3 close @3 0
3 gone 3
4 endbody 4 0
4 finish 4 completed 0
4 close @4 0
4 gone 4
4 finish 0 completed 0
4 close @0 0
job 0 completed 0
job 1 cancelled
job 2 cancelled
job 3 cancelled
job 4 completed 0
# A lazy child under a Job that is cancelling is cancelled at once and woken.
coroutine w
end
coroutine p
launch w
lazy w as z
yield
end
coroutine main
launch p as j
cancel j
end
= 0 report
0 attach 1 to 0 tag 1 plain
0 cancel 1 request
0 cancel 2 parent
0 endbody 0 0
1 attach 2 to 1 tag 2 plain
1 attach 3 to 1 tag 3 lazy cancelled
1 saw 1
1 endbody 1 0
1 finish 1 cancelled
1 close @1 0
1 gone 1
1 finish 0 completed 0
1 close @0 0
2 saw 2
2 endbody 2 0
2 finish 2 cancelled
2 close @2 0
2 gone 2
3 saw 3
3 endbody 3 0
3 finish 3 cancelled
3 close @3 0
3 gone 3
job 0 completed 0
job 1 cancelled
job 2 cancelled
job 3 cancelled
# A lazy coroutine that was cancelled never runs; a join starts one.
coroutine w
result 5
end
coroutine main
lazy w as x
cancel x
lazy w as y
join y
end
= 0 but-book-2
0 attach 1 to 0 tag 1 lazy
0 cancel 1 request
0 attach 2 to 0 tag 2 lazy
0 start 2
0 await @2 0 @2.0 0
0 settle @2.0 closed 0 5
0 endbody 0 0
0 finish 0 completed 0
0 close @0 0
1 saw 1
1 endbody 1 0
1 finish 1 cancelled
1 close @1 0
1 gone 1
job 0 completed 0
job 1 cancelled
job 2 completed 5
# A failure cancels the parent.
coroutine leaf
fail 7
end
coroutine main
launch leaf
yield
yield
yield
end
= 1 report
0 attach 1 to 0 tag 1 plain
0 saw 0
0 endbody 0 0
0 finish 0 failed 1
0 close @0 0
1 fail 7
1 cancel 1 own 1
1 cancel 0 child 1
1 endbody 1 0
1 finish 1 failed 1
1 close @1 0
1 gone 1
job 0 failed 1
job 1 failed 1
# A failure cancels the siblings that wait, and goes up to the root.
channel a rendezvous
coroutine leaf
fail 7
end
coroutine sib
receive a
end
coroutine mid
launch sib
launch leaf
end
coroutine main
launch mid
end
= 1 report
0 attach 1 to 0 tag 1 plain
0 endbody 0 0
1 attach 2 to 1 tag 2 plain
1 attach 3 to 1 tag 3 plain
1 endbody 1 0
2 await a 0 a.0 0
2 saw 2
2 withdraw a.0 cancelled
2 settle a.0 cancelled
2 endbody 2 0
2 finish 2 cancelled
2 close @2 0
2 gone 2
2 finish 1 failed 3
2 close @1 0
2 gone 1
2 finish 0 failed 3
2 close @0 0
3 fail 7
3 cancel 3 own 3
3 cancel 1 child 3
3 cancel 2 parent
3 cancel 0 child 1
3 endbody 3 0
3 finish 3 failed 3
3 close @3 0
3 gone 3
job 0 failed 3
job 1 failed 3
job 2 cancelled
job 3 failed 3
";
