//! What calls are made with.

use std::alloc::Global;
use std::io::Print;

/// What calls are made with. What is made for a call, and the text of what it answered, have memory;
/// a call stands between two marks, within which memory may be refused.
#[derive(Clone, Copy)]
pub struct Runner<'r> {
    rt: &'r HostRuntime,
    is_marked: bool,
}

impl<'r> Runner<'r> {
    /// A runner whose marks are lines of its output, each in one write, or nothing.
    pub fn new(rt: &'r HostRuntime, is_marked: bool) -> Self {
        Runner { rt, is_marked }
    }

    /// A runner that marks nothing.
    pub fn unmarked(&self) -> Self {
        Runner {
            rt: self.rt,
            is_marked: false,
        }
    }

    /// The memory of what stands around a call.
    pub fn alloc(&self) -> Global {
        self.rt.alloc()
    }

    /// Marks that a call begins.
    pub fn begin(&self) {
        if self.is_marked {
            let _ = self.rt.write_all(b"call\n");
        }
    }

    /// Marks that a call has answered, if one has begun.
    pub fn end(&self) {
        if self.is_marked {
            let _ = self.rt.write_all(b"answer\n");
        }
    }

    /// Marks that a call begins, and gives it its memory.
    pub fn call(&self) -> Global {
        self.begin();
        self.alloc()
    }
}
