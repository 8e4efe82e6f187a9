//! Scripts that are none, each with the line and the name of its fault.

/// Rows, as `tests` reads them.
pub(crate) const FAULT_ROWS: &str = "\
# What is no script.

= 3 report
line 1: NoMain
# A coroutine without its end.
coroutine main
= 3 report
line 1: NoEnd
# A number that is too large.
channel a rendezvous
coroutine main
send a 4294967296
end
= 3 report
line 3: BadNumber
# A first word that is none.
chanel a rendezvous
= 3 report
line 1: UnknownWord
# A capacity of no elements.
channel a buffered 0
= 3 report
line 1: BadNumber
# A name with a capital letter.
channel A rendezvous
= 3 report
line 1: BadName
# A name twice.
channel a rendezvous
channel a rendezvous
= 3 report
line 2: Duplicate
# A channel that is not declared.
coroutine main
send a 1
end
= 3 report
line 2: Undeclared
# An await of a Job that has no result.
coroutine p
end
coroutine main
launch p as j
await j
end
= 3 report
line 5: Undeclared
# A channel of the second version in a script that does not begin with it.
channel a droplatest 2
coroutine main
end
= 3 report
line 1: UnknownWord
# A version that is none.
script 3
channel a droplatest 2
coroutine main
end
= 3 report
line 1: BadNumber
# The version after another line.
channel a rendezvous
script 2
coroutine main
end
= 3 report
line 2: UnknownWord
# The version twice.
script 2
script 2
coroutine main
end
= 3 report
line 2: UnknownWord
# The version without a number.
script
= 3 report
line 1: BadNumber
# A word too many.
coroutine main extra
= 3 report
line 1: Extra
# Nine repeats, one in the other.
coroutine main
repeat 2
repeat 2
repeat 2
repeat 2
repeat 2
repeat 2
repeat 2
repeat 2
repeat 2
= 3 report
line 10: TooDeep
# More Jobs than a run may have.
coroutine w
end
coroutine main
end
spawn w 16000
= 3 report
line 5: TooMany
# A coroutine that launches itself.
coroutine p
launch p
end
= 3 report
line 2: Recursive
# Fourteen coroutines of which each but the first launches the one before it twice.
coroutine b0
end
coroutine b1
launch b0
launch b0
end
coroutine b2
launch b1
launch b1
end
coroutine b3
launch b2
launch b2
end
coroutine b4
launch b3
launch b3
end
coroutine b5
launch b4
launch b4
end
coroutine b6
launch b5
launch b5
end
coroutine b7
launch b6
launch b6
end
coroutine b8
launch b7
launch b7
end
coroutine b9
launch b8
launch b8
end
coroutine b10
launch b9
launch b9
end
coroutine b11
launch b10
launch b10
end
coroutine b12
launch b11
launch b11
end
coroutine b13
launch b12
launch b12
end
= 3 report
line 53: TooMany
# Four repeats of a million turns, one in the other.
coroutine w
end
coroutine main
repeat 1000000
repeat 1000000
repeat 1000000
repeat 1000000
launch w
= 3 report
line 8: TooMany
# A launch for each element, and nobody knows how many come.
channel a rendezvous
coroutine w
end
coroutine main
each a
launch w
= 3 report
line 6: TooMany
";
