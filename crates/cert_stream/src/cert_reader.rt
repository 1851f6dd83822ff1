//! A certificate that is read from an opened file, item by item, in memory that does not grow with it.

ghost use Rattle.std.specs.Prelude.{◌≡◌, ◌≢◌, ◌-◌, ◌<◌, ◌≤◌, ◌^◌, ◌⊎◌, [], length, Ok, Err, true, false, IsTrue, IfOk, IfErr, OnOk, OnErr, List, ℕ};
ghost use Rattle.edge_io.specs.Counts.{Rose, RoseBy};
ghost use Rattle.shelf_calls.specs.Opened.{IsUsedUp};
ghost use Rattle.shelf_calls.specs.Told.{Keeps};
ghost use Rattle.cert_text.specs.declared.fault.TextFault.{TextFault as AFault};
ghost use Rattle.cert_stream.specs.declared.fault.ItemFault.TheVariants as faults;
ghost use Rattle.cert_items.specs.declared.items.State.TheVariants as states;
ghost use Rattle.cert_items.specs.Items.{shown_item, next_at};
ghost use Rattle.cert_stream.specs.Streams.{Filled, ReaderTook, GivesItem, GivesFault, Finished, FailsLater, Fails, HasBehind, IsMore, TookMore, MayFollow, IsAtEnd, fresh, at_of};

use crate::fault::ItemFault;
use crate::held::Held;
use cert_items::{Item, State, read_item};
use cert_text::{SliceSource, Source, Stop, TextFault};
use edge_io::Memory;
use shelf_calls::Shelf;
use std::alloc::Global;
use std::marker::Model;

/// As many bytes as no item takes more of.
const LOOK: usize = 128;

/// A reader of the certificate in the file that a shelf has opened. Its room is taken when it is made.
#[derive(Drop)]
pub struct CertReader {
    /// What is taken and not read.
    held: Held,
    /// The line in which the next byte stands, from 1.
    line: u64,
    /// How many bytes more may be taken.
    left: u64,
    state: State,
    /// Nothing is left on the shelf.
    ended: bool,
}

impl Model for CertReader {
    ghost use Rattle.std.specs.Prelude.{◌+◌, ◌<◌, ◌^◌, length};
    ghost use Rattle.cert_stream.specs.Streams.{Reader, later};

    ghost Value = { Reader };

    ghost view = { λ r. record { state = r.state; line = r.line; held = r.held; left = r.left; ended = r.ended } };

    // No line but the first has a number past the last byte's, since each has a byte beside its line feed.
    ghost invariant = { λ r. later r.line + length r.held + r.left < 2 ^ 64 };
}

impl CertReader {
    /// Before the first byte of a file that may have at most so many bytes.
    pub fn start(alloc: Global, most: u64) -> Result<CertReader, Memory>
        ensures { IfOk result (λ r. r ≡ fresh most) }
    {
        Ok(CertReader {
            held: Held::new(alloc)?,
            line: 1,
            left: most,
            state: State::Begin,
            ended: false,
        })
    }

    /// The next item.
    ///
    /// The last one comes once the file is read to its end, and nothing stands behind the last line. `Read` comes only where the
    /// shelf failed, `TooLong` where the file has more bytes than it may have, and `Text` where no certificate has it as
    /// its text; the file is read to its end before `Text` comes, so that the others go before it. It takes no memory.
    pub fn next_item<S: Shelf>(&mut self, shelf: &mut S) -> Result<Item, ItemFault>
        requires going { self.old.state ≢ states.Ended }
        requires used_up { IsTrue self.old.ended → IsUsedUp (S.told shelf.old).rest }
        // Promise: The items of a certificate that comes in pieces are those of its text: none of them more, in order, and at the end the
        //   file spells exactly their certificate
        // Promise: `TooLong` comes exactly where the file has more bytes than it may have
        ensures item { IfOk result (GivesItem self.old (S.told shelf.old).rest self.new (S.told shelf.new).rest) }
        ensures counted { OnOk result (RoseBy (self.old.left - self.new.left) (S.told shelf.old).taken (S.told shelf.new).taken) }
        // Promise: A fault is at the same line as in the text read whole; the file is read to its end before it is told, so that a file
        //   that is too long and a failed read go before it
        // Promise: `TooLong` comes exactly where the file has more bytes than it may have
        ensures text { (f : AFault) → result ≡ Err (faults.Text f) →
            GivesFault self.old (S.told shelf.old).rest self.new (S.told shelf.new).rest f }
        // Promise: `TooLong` comes exactly where the file has more bytes than it may have
        ensures too_long { result ≡ Err faults.TooLong → IsMore self.old.left (S.told shelf.old).rest }
        ensures took_more { result ≡ Err faults.TooLong → TookMore self.old.left (S.told shelf.old).taken (S.told shelf.new).taken }
        ensures read { result ≡ Err faults.Read → Rose (S.told shelf.old).faults (S.told shelf.new).faults }
        // Promise: A call of a reader that does not say that the shelf failed leaves the shelf's count of faults as it was
        ensures quiet { (result ≡ Err faults.Read) ⊎ ((S.told shelf.new).faults ≡ (S.told shelf.old).faults) }
        ensures kept { Keeps (S.told shelf.old) (S.told shelf.new) }
    {
        self.fill(shelf, LOOK)?;
        match self.step() {
            Ok(item) if self.has_ended() => {
                self.close(shelf)?;
                Ok(item)
            }
            Ok(item) => Ok(item),
            Err(fault) => {
                self.drain(shelf)?;
                Err(ItemFault::Text(fault))
            }
        }
    }

    /// Whether the last item has come.
    pub fn has_ended(&self) -> bool
        ensures ended { result ≡ true → self.now.state ≡ states.Ended }
        ensures going { result ≡ false → self.now.state ≢ states.Ended }
    {
        matches!(self.state, State::Ended)
    }

    /// Reads on up to the last item, and says what is wrong with the rest of the text. Behind the last item it reads nothing.
    ///
    /// Its faults are those of `next_item`.
    pub fn finish<S: Shelf>(&mut self, shelf: &mut S) -> Result<(), ItemFault>
        requires used_up { IsTrue self.old.ended → IsUsedUp (S.told shelf.old).rest }
        ensures finished { OnOk result (Finished self.old (S.told shelf.old).rest self.new (S.told shelf.new).rest) }
        ensures counted { OnOk result (RoseBy (self.old.left - self.new.left) (S.told shelf.old).taken (S.told shelf.new).taken) }
        ensures text { (f : AFault) → result ≡ Err (faults.Text f) →
            FailsLater self.old (S.told shelf.old).rest self.new (S.told shelf.new).rest f }
        ensures too_long { result ≡ Err faults.TooLong → IsMore self.old.left (S.told shelf.old).rest }
        ensures took_more { result ≡ Err faults.TooLong → TookMore self.old.left (S.told shelf.old).taken (S.told shelf.new).taken }
        ensures read { result ≡ Err faults.Read → Rose (S.told shelf.old).faults (S.told shelf.new).faults }
        ensures quiet { (result ≡ Err faults.Read) ⊎ ((S.told shelf.new).faults ≡ (S.told shelf.old).faults) }
        ensures kept { Keeps (S.told shelf.old) (S.told shelf.new) }
    {
        while !self.has_ended() {
            self.next_item(shelf)?;
        }
        Ok(())
    }

    /// The item at the front of the bytes that are held.
    fn step(&mut self) -> Result<Item, TextFault>
        requires { (128 ≤ length self.old.held) ⊎ IsTrue self.old.ended }
        ensures item { IfOk result (λ i. (more : List ℕ) → MayFollow self.old more →
            next_at self.old.state (at_of self.old more) ≡ Ok ((shown_item i, self.new.state), at_of self.new more)) }
        ensures fault { IfErr result (λ f. (more : List ℕ) → MayFollow self.old more →
            next_at self.old.state (at_of self.old more) ≡ Err f.line) }
        ensures some { OnOk result (length self.new.held < length self.old.held) }
        ensures unchanged { OnErr result (self.new ≡ self.old) }
        ensures left { self.new.left ≡ self.old.left }
        ensures ended { self.new.ended ≡ self.old.ended }
    {
        let mut src = SliceSource::resume(self.held.as_slice(), self.line);
        match read_item(&mut src, self.state) {
            Ok((item, state)) => {
                let line = src.line();
                let count = src.rest().len();
                self.held.keep_last(count);
                self.line = line;
                self.state = state;
                Ok(item)
            }
            Err(Stop::Text(fault)) => Err(fault),
            Err(Stop::Source) => unreachable!(),
        }
    }

    /// Reads on to the end behind the last line, where nothing may stand.
    fn close<S: Shelf>(&mut self, shelf: &mut S) -> Result<(), ItemFault>
        requires used_up { IsTrue self.old.ended → IsUsedUp (S.told shelf.old).rest }
        ensures nothing { OnOk result (self.old.held ≡ []) }
        ensures filled { OnOk result (Filled self.old (S.told shelf.old).rest self.new (S.told shelf.new).rest) }
        ensures at_end { OnOk result (IsAtEnd self.new) }
        ensures counted { OnOk result (RoseBy (self.old.left - self.new.left) (S.told shelf.old).taken (S.told shelf.new).taken) }
        ensures text { (f : AFault) → result ≡ Err (faults.Text f) →
            HasBehind self.old (S.told shelf.old).rest self.new (S.told shelf.new).rest f }
        ensures too_long { result ≡ Err faults.TooLong → IsMore self.old.left (S.told shelf.old).rest }
        ensures took_more { result ≡ Err faults.TooLong → TookMore self.old.left (S.told shelf.old).taken (S.told shelf.new).taken }
        ensures read { result ≡ Err faults.Read → Rose (S.told shelf.old).faults (S.told shelf.new).faults }
        ensures quiet { (result ≡ Err faults.Read) ⊎ ((S.told shelf.new).faults ≡ (S.told shelf.old).faults) }
        ensures kept { Keeps (S.told shelf.old) (S.told shelf.new) }
    {
        self.fill(shelf, 1)?;
        if self.held.len() == 0 {
            return Ok(());
        }
        let line = self.line;
        self.drain(shelf)?;
        Err(ItemFault::Text(TextFault { line }))
    }

    /// Takes bytes until so many are held, or nothing is left.
    fn fill<S: Shelf>(&mut self, shelf: &mut S, count: usize) -> Result<(), ItemFault>
        requires few { count ≤ 128 }
        requires used_up { IsTrue self.old.ended → IsUsedUp (S.told shelf.old).rest }
        ensures filled { OnOk result (Filled self.old (S.told shelf.old).rest self.new (S.told shelf.new).rest) }
        ensures enough { OnOk result ((count ≤ length self.new.held) ⊎ IsTrue self.new.ended) }
        ensures counted { OnOk result (RoseBy (self.old.left - self.new.left) (S.told shelf.old).taken (S.told shelf.new).taken) }
        ensures failed { IfErr result (λ e. Fails e self.old.left (S.told shelf.old) (S.told shelf.new)) }
        ensures quiet { (result ≡ Err faults.Read) ⊎ ((S.told shelf.new).faults ≡ (S.told shelf.old).faults) }
        ensures kept { Keeps (S.told shelf.old) (S.told shelf.new) }
    {
        while self.held.len() < count && !self.ended {
            self.take_some(shelf)?;
        }
        Ok(())
    }

    /// Takes the rest and lets it go.
    fn drain<S: Shelf>(&mut self, shelf: &mut S) -> Result<(), ItemFault>
        requires used_up { IsTrue self.old.ended → IsUsedUp (S.told shelf.old).rest }
        ensures took { OnOk result (ReaderTook self.old (S.told shelf.old).rest self.new (S.told shelf.new).rest) }
        ensures ended { OnOk result (IsTrue self.new.ended) }
        ensures failed { IfErr result (λ e. Fails e self.old.left (S.told shelf.old) (S.told shelf.new)) }
        ensures quiet { (result ≡ Err faults.Read) ⊎ ((S.told shelf.new).faults ≡ (S.told shelf.old).faults) }
        ensures kept { Keeps (S.told shelf.old) (S.told shelf.new) }
    {
        while !self.ended {
            self.held.clear();
            self.take_some(shelf)?;
        }
        Ok(())
    }

    /// Takes the next piece, behind the bytes that are held.
    fn take_some<S: Shelf>(&mut self, shelf: &mut S) -> Result<(), ItemFault>
        requires room { length self.old.held < 128 }
        requires going { self.old.ended ≡ false }
        ensures filled { OnOk result (Filled self.old (S.told shelf.old).rest self.new (S.told shelf.new).rest) }
        ensures some { OnOk result (IsTrue self.new.ended ⊎ (length self.old.held < length self.new.held)) }
        ensures counted { OnOk result (RoseBy (self.old.left - self.new.left) (S.told shelf.old).taken (S.told shelf.new).taken) }
        ensures failed { IfErr result (λ e. Fails e self.old.left (S.told shelf.old) (S.told shelf.new)) }
        ensures quiet { (result ≡ Err faults.Read) ⊎ ((S.told shelf.new).faults ≡ (S.told shelf.old).faults) }
        ensures kept { Keeps (S.told shelf.old) (S.told shelf.new) }
    {
        match self.held.take_from(shelf) {
            Ok(0) => {
                self.ended = true;
                Ok(())
            }
            Ok(count) if count as u64 > self.left => {
                self.held.clear();
                Err(ItemFault::TooLong)
            }
            Ok(count) => {
                self.left -= count as u64;
                Ok(())
            }
            Err(_) => {
                self.held.clear();
                Err(ItemFault::Read)
            }
        }
    }
}
