//! An end behind a pointer that says nothing of what it points to.
ghost use Rattle.std.specs.Prelude.{◌≡◌, Option, Some, None};
ghost use Rattle.channel_ends.specs.declared.end.End.{End};
ghost use Rattle.channel_ends.specs.Hidden.{end_coded, hidden_owns};

use crate::end::End;
use crate::parts::Parts;
use std::alloc::Global;
use std::marker::Model;
use std::ptr::null_mut;

/// An end on the heap, or nothing.
#[repr(C)]
#[derive(Drop)]
pub struct Hidden {
    at: *mut u8,
    alloc: Global,
    pub ghost end: { Option End } by { end_coded },
}

impl Model for Hidden {
    ghost also_owns = { λ h. hidden_owns h.alloc h.at h.end };
}

// An end may go to another thread, and so may what hides it.
unsafe impl Send for Hidden {}

/// Hides an end.
pub fn hide(end: Box<End, Global>) -> Hidden
    ensures { result.end ≡ Some end.value }
{
    Hidden::of_parts(Parts::of(end))
}

/// Shows the end that was hidden.
pub fn show(hidden: Hidden) -> Box<End, Global>
    requires some { (e : End) × (hidden.end ≡ Some e) }
    ensures { hidden.end ≡ Some result.value }
{
    hidden.into_parts().into_box()
}

/// Nothing.
pub fn nothing(alloc: Global) -> Hidden
    ensures { result.end ≡ None }
{
    Hidden {
        at: null_mut(),
        alloc,
    }
}

impl Hidden {
    fn of_parts(parts: Parts<End, Global>) -> Hidden
        ensures { result.end ≡ Some parts.value }
    {
        let Parts { ptr, alloc } = parts;
        let at = ptr as *mut u8;
        Hidden { at, alloc }
    }

    fn into_parts(self) -> Parts<End, Global>
        requires some { (e : End) × (self.end ≡ Some e) }
        ensures { self.end ≡ Some result.value }
    {
        let Hidden { at, alloc } = self;
        let ptr = at as *mut End;
        Parts { ptr, alloc }
    }
}
