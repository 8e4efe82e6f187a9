//! Scripts that wait for the end of a Job.

/// Rows, as `tests` reads them.
pub(crate) const AWAIT_ROWS: &str = "\
# An await gives the result of what it awaits.
coroutine w
result 5
end
coroutine main
async w as x
await x
result sum
end
= 0 report
0 attach 1 to 0 tag 1 plain
0 await @1 0 @1.0 0
0 settle @1.0 closed 0 5
0 sawend 1 completed 5
0 endbody 0 5
0 finish 0 completed 5
0 close @0 5
1 endbody 1 5
1 finish 1 completed 5
1 close @1 5
1 wakeclosed @1 0
1 gone 1
job 0 completed 5
job 1 completed 5
# await gives the value of the Job that it names, in the order of the awaits.
coroutine x
result 3
end
coroutine y
yield
yield
result 40
end
coroutine main
async x as a
async y as b
await b
await a
result sum
end
= 0 report
0 attach 1 to 0 tag 1 plain
0 attach 2 to 0 tag 2 plain
0 await @2 0 @2.0 0
0 settle @2.0 closed 0 40
0 sawend 2 completed 40
0 receiveclosed @1 3
0 sawend 1 completed 3
0 endbody 0 43
0 finish 0 completed 43
0 close @0 43
1 endbody 1 3
1 finish 1 completed 3
1 close @1 3
1 gone 1
2 endbody 2 40
2 finish 2 completed 40
2 close @2 40
2 wakeclosed @2 0
2 gone 2
job 0 completed 43
job 1 completed 3
job 2 completed 40
# await of a cancelled Job unwinds the caller as cancelled; await of a failed one with its failure.
coroutine w
yield
yield
end
coroutine q
async w as j
cancel j
await j
result 1
end
coroutine f
fail 6
end
coroutine s
supervisor
async f as j
await j
end
result 1
end
coroutine main
launch q
supervisor
launch s
end
end
= 0 report
0 attach 1 to 0 tag 1 plain
0 attach 5 to 0 tag 0 supervisor
0 attach 3 to 5 tag 3 plain
0 endbody 5 0
0 await @5 0 @5.0 0
0 settle @5.0 closed 0 0
0 sawend 5 completed 0
0 endbody 0 0
0 finish 0 completed 0
0 close @0 0
1 attach 2 to 1 tag 2 plain
1 cancel 2 request
1 await @2 0 @2.0 0
1 settle @2.0 closed 0 0
1 sawend 2 cancelled
1 cancel 1 request
1 endbody 1 0
1 finish 1 cancelled
1 close @1 0
1 gone 1
2 saw 2
2 endbody 2 0
2 finish 2 cancelled
2 close @2 0
2 wakeclosed @2 0
2 gone 2
3 attach 6 to 3 tag 3 supervisor
3 attach 4 to 6 tag 4 plain
3 await @4 0 @4.0 0
3 settle @4.0 closed 0 0
3 sawend 4 failed 4
3 cancel 6 own 4
3 endbody 6 0
3 finish 6 failed 4
3 close @6 0
3 gone 6
3 receiveclosed @6 0
3 sawend 6 failed 4
3 cancel 3 own 4
3 endbody 3 0
3 finish 3 failed 4
3 close @3 0
3 gone 3
3 finish 5 completed 0
3 close @5 0
3 wakeclosed @5 0
3 gone 5
4 fail 6
4 cancel 4 own 4
4 endbody 4 0
4 finish 4 failed 4
4 close @4 0
4 wakeclosed @4 0
4 gone 4
job 0 completed 0
job 1 cancelled
job 2 cancelled
job 3 failed 4
job 4 failed 4
job 5 completed 0
job 6 failed 4
# join of a Job that ended, of a lazy one, and of one that waits.
coroutine w
result 1
end
coroutine v
yield
yield
end
coroutine main
launch w as a
yield
yield
join a
lazy w as b
join b
launch v as c
join c
end
= 0 report
0 attach 1 to 0 tag 1 plain
0 receiveclosed @1 1
0 attach 2 to 0 tag 2 lazy
0 start 2
0 await @2 0 @2.0 0
0 settle @2.0 closed 0 1
0 attach 3 to 0 tag 3 plain
0 await @3 0 @3.0 0
0 settle @3.0 closed 0 0
0 endbody 0 0
0 finish 0 completed 0
0 close @0 0
1 endbody 1 1
1 finish 1 completed 1
1 close @1 1
1 gone 1
2 endbody 2 1
2 finish 2 completed 1
2 close @2 1
2 wakeclosed @2 0
2 gone 2
3 endbody 3 0
3 finish 3 completed 0
3 close @3 0
3 wakeclosed @3 0
3 gone 3
job 0 completed 0
job 1 completed 1
job 2 completed 1
job 3 completed 0
# A join inside a cancelled coroutine sees it first; inside a scope it looks at the scope's Job.
coroutine w
yield
yield
yield
end
coroutine f
yield
fail 2
end
coroutine p
scope
launch f
launch w as j
join j
end
end
coroutine main
launch p
end
= 1 report
0 attach 1 to 0 tag 1 plain
0 endbody 0 0
1 attach 4 to 1 tag 1 scope
1 attach 2 to 4 tag 2 plain
1 attach 3 to 4 tag 3 plain
1 await @3 0 @3.0 0
1 saw 4
1 withdraw @3.0 cancelled
1 settle @3.0 cancelled
1 endbody 4 0
1 finish 4 failed 2
1 close @4 0
1 gone 4
1 receiveclosed @4 0
1 sawend 4 failed 2
1 cancel 1 own 2
1 cancel 0 child 1
1 endbody 1 0
1 finish 1 failed 2
1 close @1 0
1 gone 1
1 finish 0 failed 2
1 close @0 0
2 fail 2
2 cancel 2 own 2
2 cancel 4 child 2
2 cancel 3 parent
2 endbody 2 0
2 finish 2 failed 2
2 close @2 0
2 gone 2
3 saw 3
3 endbody 3 0
3 finish 3 cancelled
3 close @3 0
3 gone 3
job 0 failed 2
job 1 failed 2
job 2 failed 2
job 3 cancelled
job 4 failed 2
";
