// Writes, truncations and reads, and the pieces that a collection takes.
ghost use Rattle.std.specs.Prelude.{◌≡◌, ℕ, ◌+◌, List, Some, length, IfOk, OnErr};
ghost use Rattle.hash_algos.specs.Digest.{digest_of};
ghost use Rattle.ima_templates.specs.declared.entry.Entry.{Entry as AnyEntry};
ghost use Rattle.inode_events.specs.Integrity.{Collection as AnyCollection, collecting};
ghost use Rattle.inode_events.specs.Legal.{May};
ghost use Rattle.inode_events.specs.NewestFirst.{newest_first};
ghost use Rattle.inode_events.specs.Says.{chunk_told};
ghost use Rattle.inode_events.specs.State.{content};
ghost use Rattle.inode_pages.specs.Content.{bytes_at, piece_at};
ghost use Rattle.inode_cell.specs.Acts.{Acts, MayBy, Stays};
ghost use Rattle.inode_answers.specs.Answers.{piece_told, wrote_told};
ghost use Rattle.inode_cell.specs.Pieces.{IsPieceDeed};

use crate::cell::InodeCell;
use grow_list::Pass;
use hash_algos::Algo;
use inode_answers::{Got, Piece, Wrote, piece_of, piece_told, wrote, wrote_told};
use inode_events::{BoxedBytes, Deed, Event, Told};
use inode_hashing::hashed_at;
use inode_meta::Who;
use inode_pages::Page;
use inode_state::Facts;
use std::alloc::AllocError as OutOfMemory;

impl InodeCell {
    // The next piece of the open collection, for a deed that takes it.
    fn next_piece(&self, deed: &Deed) -> Result<(Piece, Page), OutOfMemory>
        requires may { May self.now.inode (newest_first self.now.list) deed.now }
        requires piece { IsPieceDeed deed.now }
        ensures told { IfOk result
            (λ r. chunk_told (content (newest_first self.now.list)) (collecting
            self.now.inode (newest_first self.now.list)) ≡ Some (piece_told r.0)) }
        ensures page { IfOk result (λ r. (c : AnyCollection)
            → collecting self.now.inode (newest_first self.now.list) ≡ Some c
            → r.1 ≡ piece_at (content (newest_first self.now.list)) c.pieces) }
    {
        let Some(collecting) = &self.kept.state().collecting else {
            unreachable!()
        };
        let page = self.content.page(self.alloc, collecting.pieces as u32)?;
        Ok((piece_of(self.size(), collecting.pieces), page))
    }

    // Takes the next piece into the open collection.
    fn take_piece(
        &mut self,
        pass: &mut Pass<Event>,
        who: Who,
        deed: Deed,
    ) -> Result<(Piece, Page), OutOfMemory>
        requires name { pass.old.name ≡ self.old.journal }
        requires number { pass.old.number ≡ who.task + 1 }
        requires may { MayBy self.old pass.old.number deed }
        requires piece { IsPieceDeed deed }
        ensures acts { IfOk result (λ r. (list : List AnyEntry)
            → Acts self.old self.new list list pass.old pass.new who deed (Some (piece_told r.0))) }
        ensures page { IfOk result (λ r. (c : AnyCollection)
            → collecting self.old.inode (newest_first self.old.list) ≡ Some c
            → r.1 ≡ piece_at (content (newest_first self.old.list)) c.pieces) }
        ensures err { OnErr result (Stays self.old self.new pass.old pass.new) }
    {
        self.reserve()?;
        let (piece, page) = self.next_piece(&deed)?;
        self.step(pass, who, deed, piece_told(piece), &Facts::nothing());
        Ok((piece, page))
    }

    /// Takes the next 4,096 bytes into the collection of a take, and returns them to be hashed.
    pub fn chunk(
        &mut self,
        pass: &mut Pass<Event>,
        who: Who,
        file: u64,
    ) -> Result<(Piece, Page), OutOfMemory>
        requires name { pass.old.name ≡ self.old.journal }
        requires number { pass.old.number ≡ who.task + 1 }
        requires may { MayBy self.old pass.old.number (Deed.Chunk file) }
        ensures acts { IfOk result (λ r. (list : List AnyEntry)
            → Acts self.old self.new list list pass.old pass.new who (Deed.Chunk file) (Some
            (piece_told r.0))) }
        ensures page { IfOk result (λ r. (c : AnyCollection)
            → collecting self.old.inode (newest_first self.old.list) ≡ Some c
            → r.1 ≡ piece_at (content (newest_first self.old.list)) c.pieces) }
        ensures err { OnErr result (Stays self.old self.new pass.old pass.new) }
    {
        self.take_piece(pass, who, Deed::Chunk { file })
    }

    /// Takes the next 4,096 bytes into the collection of a close, and returns them to be hashed.
    pub fn close_chunk(
        &mut self,
        pass: &mut Pass<Event>,
        who: Who,
        file: u64,
    ) -> Result<(Piece, Page), OutOfMemory>
        requires name { pass.old.name ≡ self.old.journal }
        requires number { pass.old.number ≡ who.task + 1 }
        requires may { MayBy self.old pass.old.number (Deed.CloseChunk file) }
        ensures acts { IfOk result (λ r. (list : List AnyEntry)
            → Acts self.old self.new list list pass.old pass.new who (Deed.CloseChunk file) (Some
            (piece_told r.0))) }
        ensures page { IfOk result (λ r. (c : AnyCollection)
            → collecting self.old.inode (newest_first self.old.list) ≡ Some c
            → r.1 ≡ piece_at (content (newest_first self.old.list)) c.pieces) }
        ensures err { OnErr result (Stays self.old self.new pass.old pass.new) }
    {
        self.take_piece(pass, who, Deed::CloseChunk { file })
    }

    // Hashes at most `len` bytes, starting at the byte `from`.
    fn hashed(&self, from: u64, len: u64) -> Got
        ensures n { result.n ≡ length (bytes_at (content (newest_first self.now.list)) from len) }
        ensures digest { result.digest ≡ digest_of Algo.Sha256 (bytes_at (content (newest_first
            self.now.list)) from len) }
    {
        let (n, digest) = hashed_at(&self.content, from, len);
        Got { n, digest }
    }

    /// Reads at most `len` bytes, starting at the byte `from`, and returns their digest.
    pub fn read(
        &mut self,
        pass: &mut Pass<Event>,
        who: Who,
        file: u64,
        from: u64,
        len: u64,
    ) -> Result<Got, OutOfMemory>
        requires name { pass.old.name ≡ self.old.journal }
        requires number { pass.old.number ≡ who.task + 1 }
        requires may { MayBy self.old pass.old.number (Deed.Read file from len) }
        ensures acts { IfOk result (λ g. (list : List AnyEntry)
            → Acts self.old self.new list list pass.old pass.new who (Deed.Read file from len)
            (Some (Told.Read g.n g.digest))) }
        ensures err { OnErr result (Stays self.old self.new pass.old pass.new) }
    {
        self.reserve()?;
        let got = self.hashed(from, len);
        let told = Told::Read {
            n: got.n,
            digest: got.digest,
        };
        self.step(
            pass,
            who,
            Deed::Read { file, from, len },
            told,
            &Facts::nothing(),
        );
        Ok(got)
    }

    /// Writes `bytes`, starting at the byte `from`.
    pub fn write(
        &mut self,
        pass: &mut Pass<Event>,
        who: Who,
        file: u64,
        from: u64,
        bytes: &[u8],
    ) -> Result<Wrote, OutOfMemory>
        requires name { pass.old.name ≡ self.old.journal }
        requires number { pass.old.number ≡ who.task + 1 }
        requires may { MayBy self.old pass.old.number (Deed.Write file from bytes.now) }
        ensures acts { IfOk result (λ w. (list : List AnyEntry)
            → Acts self.old self.new list list pass.old pass.new who (Deed.Write file from
            bytes.now) (Some (wrote_told w))) }
        ensures err { OnErr result (Stays self.old self.new pass.old pass.new) }
    {
        self.reserve()?;
        let copy = BoxedBytes::from_slice(self.alloc, bytes)?;
        let wrote = wrote(self.content.write(self.alloc, from, bytes))?;
        let deed = Deed::Write {
            file,
            from,
            bytes: copy,
        };
        let told = wrote_told(wrote);
        self.kept
            .enter(pass, Event { who, deed, told }, &Facts::nothing());
        Ok(wrote)
    }

    /// Sets the length of the content to `len` bytes, adding zeros if it was shorter.
    pub fn trunc(
        &mut self,
        pass: &mut Pass<Event>,
        who: Who,
        file: u64,
        len: u64,
    ) -> Result<Wrote, OutOfMemory>
        requires name { pass.old.name ≡ self.old.journal }
        requires number { pass.old.number ≡ who.task + 1 }
        requires may { MayBy self.old pass.old.number (Deed.Trunc file len) }
        ensures acts { IfOk result (λ w. (list : List AnyEntry)
            → Acts self.old self.new list list pass.old pass.new who (Deed.Trunc file len) (Some
            (wrote_told w))) }
        ensures err { OnErr result (Stays self.old self.new pass.old pass.new) }
    {
        self.reserve()?;
        let wrote = wrote(self.content.resize(self.alloc, len))?;
        let deed = Deed::Trunc { file, len };
        let told = wrote_told(wrote);
        self.kept
            .enter(pass, Event { who, deed, told }, &Facts::nothing());
        Ok(wrote)
    }
}
