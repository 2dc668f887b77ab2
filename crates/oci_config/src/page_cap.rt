//! The most pages that a process's memory may have.

ghost use Rattle.std.specs.Prelude.{◌≡◌, ◌≤◌, ◌<◌, Some, None};
ghost use Rattle.linear_memory.specs.Memory.{max_pages};

use linear_memory::MAX_PAGES;
use std::marker::Model;

/// A cap on the pages of a memory: at most 256. Contracts see the number.
#[derive(Clone, Copy)]
pub struct PageCap {
    pages: u32,
}

impl Model for PageCap {
    ghost use Rattle.std.specs.Prelude.{ℕ, ◌≤◌};
    ghost use Rattle.linear_memory.specs.Memory.{max_pages};

    ghost Value = { ℕ };

    ghost view = { λ c. c.pages };

    ghost inverse = { λ n. record { pages = n } };

    ghost invariant = { λ c. c.pages ≤ max_pages };
}

impl PageCap {
    /// A cap of this number of pages; None exactly if it is over 256.
    pub fn new(pages: u32) -> Option<PageCap>
        ensures within { pages ≤ max_pages → result ≡ Some pages }
        ensures over { max_pages < pages → result ≡ None }
    {
        if pages > MAX_PAGES {
            return None;
        }
        Some(PageCap { pages })
    }

    /// How many pages.
    pub fn pages(self) -> u32
        ensures pages { result ≡ self }
        ensures within { result ≤ max_pages }
    {
        self.pages
    }

    /// Shows that it is at most 256.
    pub fn bounded(self)
        ensures { self ≤ max_pages }
    {
        let _pages = self.pages;
    }
}
