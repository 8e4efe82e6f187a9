//! Calls with other words than those of a run by one worker.

/// Rows, as `tests` reads them.
pub(crate) const WORD_ROWS: &str = "\
# Four workers, where none is said.
$ sum --size=1000
= 0 report
jobs 11 completed 11 cancelled 0 received 8000 undelivered 0 dropped 0 withdrawn 0 held 0 result 10000
# A sum by one worker.
$ sum --size 1000 --workers 1
= 0 report
jobs 11 completed 11 cancelled 0 received 8000 undelivered 0 dropped 0 withdrawn 0 held 0 result 10000
# The same sum by two workers.
$ sum --size 1000 --workers 2
= 0 report
jobs 11 completed 11 cancelled 0 received 8000 undelivered 0 dropped 0 withdrawn 0 held 0 result 10000
# The same sum by four workers.
$ sum --size 1000 --workers 4
= 0 report
jobs 11 completed 11 cancelled 0 received 8000 undelivered 0 dropped 0 withdrawn 0 held 0 result 10000
# The same sum by sixteen workers.
$ sum --size 1000 --workers 16
= 0 report
jobs 11 completed 11 cancelled 0 received 8000 undelivered 0 dropped 0 withdrawn 0 held 0 result 10000
# A sender and a receiver meet by two workers.
$ run --workers 2
channel a rendezvous
coroutine p
send a 5
end
coroutine c
receive a
end
coroutine main
end
spawn p
spawn c
= 0 jobs
job 0 completed 0
job 1 completed 0
job 2 completed 0
# A sender and a receiver meet by four workers.
$ run --workers 4
channel a rendezvous
coroutine p
send a 5
end
coroutine c
receive a
end
coroutine main
end
spawn p
spawn c
= 0 jobs
job 0 completed 0
job 1 completed 0
job 2 completed 0
# A sender and a receiver meet by sixteen workers.
$ run --workers 16
channel a rendezvous
coroutine p
send a 5
end
coroutine c
receive a
end
coroutine main
end
spawn p
spawn c
= 0 jobs
job 0 completed 0
job 1 completed 0
job 2 completed 0
# A check writes a script with spaces, an empty line and a comment in its canonical form.
$ check
#two elements
channel   a buffered

coroutine main
repeat 2
send a 1
end
end
= 0 report
channel a buffered 64 places 16384
coroutine main
  repeat 2
    send a 1
  end
end
# A check says which line is not in ASCII.
$ check
#\u{e9}
= 3 report
line 1: NotAscii
";
