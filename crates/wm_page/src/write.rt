//! The pages that a change writes.
ghost use Rattle.std.specs.Prelude.{◌≡◌, List, [], ◌∷◌, ◌++◌, length, IsTrue, OnOk, OnErr, ◌↔◌};

use std::alloc::Global;
use std::marker::Model;
use wm_base::{Bytes, Memory};

/// A page and the bytes that it is to hold.
#[derive(Drop)]
pub struct PageWrite {
    pub page: u64,
    /// 4,096 of them.
    pub bytes: Bytes,
    ghost whole: { length bytes ≡ 4096 },
}

/// A list of pages with their bytes.
#[derive(Drop)]
pub struct PageWrites {
    list: Vec<PageWrite>,
}

impl Model for PageWrites {
    ghost use Rattle.std.specs.Prelude.{List};
    ghost use Rattle.wm_page.specs.declared.write.PageWrite.{PageWrite};

    ghost Value = { List PageWrite };

    ghost view = { λ w. w.list.items };
}

impl PageWrites {
    /// No pages.
    pub fn new(alloc: Global) -> Self
        ensures { result ≡ [] }
    {
        PageWrites {
            list: Vec::new(alloc),
        }
    }

    pub fn from_vec(list: Vec<PageWrite>) -> Self
        ensures { result ≡ list.items }
    {
        PageWrites { list }
    }

    pub fn into_vec(self) -> Vec<PageWrite>
        ensures { result.items ≡ self }
    {
        self.list
    }

    pub fn as_slice(&self) -> &[PageWrite]
        ensures { result.now ≡ self.now }
    {
        self.list.as_slice()
    }

    pub fn len(&self) -> usize
        ensures { result ≡ length self.now }
    {
        self.list.len()
    }

    pub fn is_empty(&self) -> bool
        ensures { IsTrue result ↔ (self.now ≡ []) }
    {
        self.list.is_empty()
    }

    /// Puts a page behind those that are there.
    pub fn push(&mut self, write: PageWrite) -> Result<(), Memory>
        ensures ok { OnOk result (self.new ≡ self.old ++ write ∷ []) }
        ensures err { OnErr result (self.new ≡ self.old) }
    {
        self.list.push(write)?;
        Ok(())
    }
}
