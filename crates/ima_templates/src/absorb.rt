// The destinations of template data: a hash, a vector or a count.

ghost use Rattle.std.specs.Prelude.{◌≡◌, ◌+◌, ◌++◌, List, [], ℕ, length, take, OnOk};
ghost use Rattle.std.specs.Vec.{vec_len};
ghost use Rattle.ima_templates.specs.Feeds.{Feeds, Feeds-append, Feeds-nothing};
ghost use Rattle.ima_templates.specs.Appends.{append_more, append_nothing, keeps_all, keeps_further, length_more, length_nothing};

use hash_algos::Running;
use std::alloc::AllocError as OutOfMemory;

/// A destination of bytes, which come piece after piece. After an error it may have taken a part of
/// the piece; all that it took before is still there.
pub trait Absorb {
    ghost absorbs: { Self → Self → List ℕ → Type 0 };

    ghost keeps: { Self → Self → Type 0 };

    /// Appends the piece to the bytes taken so far.
    fn absorb(&mut self, piece: &[u8]) -> Result<(), OutOfMemory>
        ensures ok { OnOk result (absorbs self.old self.new piece.now) }
        ensures kept { keeps self.old self.new };

    ghost nothing: { (a : Self) → absorbs a a [] };

    ghost more: { (a b c : Self) (x y : List ℕ) → absorbs a b x → absorbs b c y
        → absorbs a c (x ++ y) };

    ghost keeps_all: { (a : Self) → keeps a a };

    ghost keeps_further: { (a b c : Self) → keeps a b → keeps b c → keeps a c };
}

impl Absorb for Running {
    ghost absorbs = { Feeds };

    ghost keeps = { λ a b. Unit {0} };

    fn absorb(&mut self, piece: &[u8]) -> Result<(), OutOfMemory> {
        self.feed(piece);
        Ok(())
    }

    ghost nothing = { Feeds-nothing };

    ghost more = { Feeds-append };

    ghost keeps_all = { λ a. tt };

    ghost keeps_further = { λ a b c x y. tt };
}

impl Absorb for Vec<u8> {
    ghost absorbs = { λ a b x. b.items ≡ a.items ++ x };

    ghost keeps = { λ a b. take (vec_len a) b.items ≡ a.items };

    fn absorb(&mut self, piece: &[u8]) -> Result<(), OutOfMemory> {
        self.extend_from_slice(piece)
    }

    ghost nothing = { λ a. append_nothing a.items };

    ghost more = { λ a b c x y first second. append_more a.items b.items c.items x y first second };

    ghost keeps_all = { λ a. keeps_all a.items a.len a.ok.0 };

    ghost keeps_further = { λ a b c first second.
        keeps_further a.items b.items c.items a.len b.len a.ok.0 b.ok.0 first second };
}

/// A destination that only counts the bytes.
#[derive(Drop)]
pub(crate) struct Count {
    pub(crate) bytes: usize,
}

impl Absorb for Count {
    ghost absorbs = { λ a b x. b.bytes ≡ a.bytes + length x };

    ghost keeps = { λ a b. Unit {0} };

    fn absorb(&mut self, piece: &[u8]) -> Result<(), OutOfMemory> {
        self.bytes = self.bytes.checked_add(piece.len()).ok_or(OutOfMemory)?;
        Ok(())
    }

    ghost nothing = { λ a. length_nothing a.bytes };

    ghost more = { λ a b c x y first second. length_more a.bytes b.bytes c.bytes x y first second };

    ghost keeps_all = { λ a. tt };

    ghost keeps_further = { λ a b c x y. tt };
}
