//! Pages behind a pointer.
ghost use Rattle.std.specs.Prelude.{◌≡◌, IfOk};

use crate::{Gone, Pages, Tear};
use std::alloc::{AllocError, Global};
use std::marker::Model;

/// Pages in a box. Whoever owns a `Held` moves a pointer, and not the pages.
#[derive(Drop)]
pub struct Held<P: Pages> {
    pages: Box<P>,
}

impl<P: Pages> Model for Held<P> {
    ghost Value = { P };

    ghost view = { λ held. held.pages.value };
}

impl<P: Pages> Held<P> {
    /// Puts the pages in a box. Where there is no memory for it, they are dropped.
    pub fn new(alloc: Global, pages: P) -> Result<Held<P>, AllocError>
        ensures { IfOk result (λ held. held ≡ pages) }
    {
        Ok(Held {
            pages: Box::new(alloc, pages)?,
        })
    }

    /// Takes the pages out of their box.
    pub fn into_inner(self) -> P
        ensures { result ≡ self }
    {
        Box::into_inner(self.pages)
    }
}

/// What the pages within do.
impl<P: Pages> Pages for Held<P> {
    ghost memory = { P.memory };

    fn plan(&mut self, tear: Option<Tear>) {
        self.pages.plan(tear)
    }

    fn power_up(&mut self) {
        self.pages.power_up()
    }

    fn power_off(&mut self) {
        self.pages.power_off()
    }

    fn read(&self, page: u8) -> [u8; 64] {
        self.pages.read(page)
    }

    fn mark(&mut self) {
        self.pages.mark()
    }

    fn write(&mut self, page: u8, bytes: &[u8; 64]) -> Result<(), Gone> {
        self.pages.write(page, bytes)
    }

    fn release(&mut self) -> Result<(), Gone> {
        self.pages.release()
    }
}
