//! Scripts with scopes.

/// Rows, as `tests` reads them.
pub(crate) const SCOPE_ROWS: &str = "\
# A failure inside a supervisor does not go up.
coroutine leaf
fail 7
end
coroutine sib
yield
end
coroutine mid
supervisor
launch leaf
launch sib
end
end
coroutine main
launch mid
end
= 0 jobs
job 0 completed 0
job 1 completed 0
job 2 failed 2
job 3 completed 0
job 4 completed 0
# A failure inside a scope fails its coroutine once the scope has ended.
coroutine leaf
fail 7
end
coroutine main
scope
launch leaf
end
end
= 1 report
0 attach 2 to 0 tag 0 scope
0 attach 1 to 2 tag 1 plain
0 endbody 2 0
0 await @2 0 @2.0 0
0 settle @2.0 closed 0 0
0 sawend 2 failed 1
0 cancel 0 own 1
0 endbody 0 0
0 finish 0 failed 1
0 close @0 0
1 fail 7
1 cancel 1 own 1
1 cancel 2 child 1
1 endbody 1 0
1 finish 1 failed 1
1 close @1 0
1 gone 1
1 finish 2 failed 1
1 close @2 0
1 wakeclosed @2 0
1 gone 2
job 0 failed 1
job 1 failed 1
job 2 failed 1
# A scope waits for its children, then the coroutine goes on; its Job is no child of the parent any more.
coroutine w
yield
result 3
end
coroutine main
scope
launch w
launch w
end
result 4
end
= 0 report
0 attach 3 to 0 tag 0 scope
0 attach 1 to 3 tag 1 plain
0 attach 2 to 3 tag 2 plain
0 endbody 3 0
0 await @3 0 @3.0 0
0 settle @3.0 closed 0 0
0 sawend 3 completed 0
0 endbody 0 4
0 finish 0 completed 4
0 close @0 4
1 endbody 1 3
1 finish 1 completed 3
1 close @1 3
1 gone 1
2 endbody 2 3
2 finish 2 completed 3
2 close @2 3
2 gone 2
2 finish 3 completed 0
2 close @3 0
2 wakeclosed @3 0
2 gone 3
job 0 completed 4
job 1 completed 3
job 2 completed 3
job 3 completed 0
# A failure inside a scope cancels the scope by the coroutine's own row, goes on when that has ended, and only then cancels the parent.
coroutine c
yield
yield
yield
end
coroutine p
scope
launch c
yield
fail 9
end
end
coroutine main
launch p
yield
yield
yield
yield
yield
yield
end
= 1 report
0 attach 1 to 0 tag 1 plain
0 endbody 0 0
0 finish 0 failed 1
0 close @0 0
1 attach 3 to 1 tag 1 scope
1 attach 2 to 3 tag 2 plain
1 fail 9
1 cancel 3 own 1
1 cancel 2 parent
1 endbody 3 0
1 await @3 0 @3.0 0
1 settle @3.0 closed 0 0
1 sawend 3 failed 1
1 cancel 1 own 1
1 cancel 0 child 1
1 endbody 1 0
1 finish 1 failed 1
1 close @1 0
1 gone 1
2 endbody 2 0
2 finish 2 cancelled
2 close @2 0
2 gone 2
2 finish 3 failed 1
2 close @3 0
2 wakeclosed @3 0
2 gone 3
job 0 failed 1
job 1 failed 1
job 2 cancelled
job 3 failed 1
# A child that fails in a supervisor does not cancel it; the sibling goes on.
coroutine bad
fail 1
end
coroutine good
yield
yield
result 2
end
coroutine main
supervisor
launch bad
async good as g
await g
end
result it
end
= 0 report
0 attach 3 to 0 tag 0 supervisor
0 attach 1 to 3 tag 1 plain
0 attach 2 to 3 tag 2 plain
0 await @2 0 @2.0 0
0 settle @2.0 closed 0 2
0 sawend 2 completed 2
0 endbody 3 0
0 finish 3 completed 0
0 close @3 0
0 gone 3
0 receiveclosed @3 0
0 sawend 3 completed 0
0 endbody 0 2
0 finish 0 completed 2
0 close @0 2
1 fail 1
1 cancel 1 own 1
1 endbody 1 0
1 finish 1 failed 1
1 close @1 0
1 gone 1
2 endbody 2 2
2 finish 2 completed 2
2 close @2 2
2 wakeclosed @2 0
2 gone 2
job 0 completed 2
job 1 failed 1
job 2 completed 2
job 3 completed 0
# A child that fails in a scope cancels its sibling, the scope ends failed, and the coroutine unwinds with that failure.
coroutine bad
fail 1
end
coroutine good
yield
yield
yield
result 2
end
coroutine main
scope
launch good
launch bad
yield
yield
end
result 5
end
= 1 report
0 attach 3 to 0 tag 0 scope
0 attach 1 to 3 tag 1 plain
0 attach 2 to 3 tag 2 plain
0 saw 3
0 endbody 3 0
0 await @3 0 @3.0 0
0 settle @3.0 closed 0 0
0 sawend 3 failed 2
0 cancel 0 own 2
0 endbody 0 0
0 finish 0 failed 2
0 close @0 0
1 endbody 1 2
1 finish 1 cancelled
1 close @1 0
1 gone 1
1 finish 3 failed 2
1 close @3 0
1 wakeclosed @3 0
1 gone 3
2 fail 1
2 cancel 2 own 2
2 cancel 3 child 2
2 cancel 1 parent
2 endbody 2 0
2 finish 2 failed 2
2 close @2 0
2 gone 2
job 0 failed 2
job 1 cancelled
job 2 failed 2
job 3 failed 2
# Scopes in scopes: the inner one fails, the outer one is cancelled with it by the unwinding coroutine, each ended before the next.
coroutine c
yield
yield
yield
yield
end
coroutine main
scope
launch c
supervisor
launch c
fail 3
end
end
end
= 1 report
0 attach 3 to 0 tag 0 scope
0 attach 1 to 3 tag 1 plain
0 attach 4 to 3 tag 0 supervisor
0 attach 2 to 4 tag 2 plain
0 fail 3
0 cancel 4 own 0
0 cancel 2 parent
0 endbody 4 0
0 await @4 0 @4.0 0
0 settle @4.0 closed 0 0
0 sawend 4 failed 0
0 cancel 3 own 0
0 endbody 3 0
0 finish 3 failed 0
0 close @3 0
0 gone 3
0 receiveclosed @3 0
0 sawend 3 failed 0
0 cancel 0 own 0
0 endbody 0 0
0 finish 0 failed 0
0 close @0 0
1 endbody 1 0
1 finish 1 completed 0
1 close @1 0
1 gone 1
2 saw 2
2 endbody 2 0
2 finish 2 cancelled
2 close @2 0
2 gone 2
2 finish 4 failed 0
2 close @4 0
2 wakeclosed @4 0
2 gone 4
job 0 failed 0
job 1 completed 0
job 2 cancelled
job 3 failed 0
job 4 failed 0
# A lazy async that nobody starts keeps its scope for ever.
coroutine w
end
coroutine main
scope
lazy w as j
end
end
= 4 report
0 attach 2 to 0 tag 0 scope
0 attach 1 to 2 tag 1 lazy
0 endbody 2 0
0 await @2 0 @2.0 0
job 0 active
job 1 new
job 2 completing
# A lazy async that nobody starts, cancelled, lets its scope end.
coroutine w
end
coroutine main
scope
lazy w as j
cancel j
end
result 2
end
= 0 report
0 attach 2 to 0 tag 0 scope
0 attach 1 to 2 tag 1 lazy
0 cancel 1 request
0 endbody 2 0
0 await @2 0 @2.0 0
0 settle @2.0 closed 0 0
0 sawend 2 completed 0
0 endbody 0 2
0 finish 0 completed 2
0 close @0 2
1 saw 1
1 endbody 1 0
1 finish 1 cancelled
1 close @1 0
1 gone 1
1 finish 2 completed 0
1 close @2 0
1 wakeclosed @2 0
1 gone 2
job 0 completed 2
job 1 cancelled
job 2 completed 0
";
