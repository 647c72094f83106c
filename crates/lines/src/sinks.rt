// What takes the bytes of lines: a page, on which they are written, and a
// count of them.

ghost use Rattle.std.specs.Prelude.{◌≤◌, ◌≡◌, length};
ghost use Rattle.lines.specs.Lines.{decimal};

// What takes bytes after bytes.
// Kept: not fmt::Write, whose `write!` promises text on an Ok alone; no clause promises that Ok.
pub trait Sink {
    ghost use Rattle.std.specs.Prelude.{ℕ, List, [], ◌++◌};
    ghost use Rattle.lines.specs.Between.{Takes};

    // For how many bytes there is room.
    ghost room: { Self → ℕ };

    // It takes these bytes, and what it is then.
    ghost took: { Self → List ℕ → Self → Type 0 };

    // Takes the bytes of w.
    fn word(&mut self, w: &[u8])
        requires { length w.now ≤ room self.old }
        ensures { Takes room took self.old w.now self.new };

    // Takes n in decimal.
    fn number(&mut self, n: u64)
        requires { length (decimal n) ≤ room self.old }
        ensures { Takes room took self.old (decimal n) self.new };

    // To take nothing changes nothing.
    ghost nothing: { (s : Self) → took s [] s };

    // What is taken in two parts is taken.
    ghost joined: { (s : Self) (v : List ℕ) (t : Self) (w : List ℕ) (u : Self)
        → took s v t → took t w u → took s (v ++ w) u };
}

// How many digits n has.
fn width(n: u64) -> usize
    ensures { result ≡ length (decimal n) }
{
    if n < 10 {
        return 1;
    }
    width(n / 10) + 1
}

// A count of bytes.
#[derive(Clone, Copy)]
pub struct Count(pub usize);

impl Sink for Count {
    ghost use Rattle.std.specs.Prelude.{◌+◌, ◌-◌, ◌<◌, ◌≤◌, ◌^◌, ◌≡◌, length};
    ghost use Rattle.std.proofs.Common.{arith, length-append};

    ghost room = { λ s. 2 ^ 64 - 1 - s.0 };

    ghost took = { λ s w t. (length w ≤ 2 ^ 64 - 1 - s.0) × (t.0 ≡ s.0 + length w) };

    ghost nothing = { λ s. (Prim.omega arith, Prim.omega arith) };

    ghost joined = { λ s v t w u h k. (
      Prim.omega (arith, h, k, length-append v w),
      Prim.omega (arith, h, k, length-append v w),
    ) };

    fn word(&mut self, w: &[u8]) {
        self.0 += w.len();
    }

    fn number(&mut self, n: u64) {
        self.0 += width(n);
    }
}

// A place on a page, after which bytes are written.
#[derive(Drop)]
pub struct Page<'a> {
    pub out: &'a mut [u8],
    pub at: usize,
    pub ghost within: { at ≤ length out.now },
}

impl Sink for Page<'_> {
    ghost use Rattle.std.specs.Prelude.{◌-◌, ◌≡◌, length, refl};
    ghost use Rattle.std.proofs.Common.{◌∙◌};
    ghost use Rattle.lines.specs.Room.{Fitted, fitted-nothing, fitted-joined};

    ghost room = { λ s. length s.out.now - s.at };

    ghost took = { λ s w t. (t.out.ghost_name ≡ s.out.ghost_name)
        × (Fitted w s.at s.out.now t.at t.out.now) };

    ghost nothing = { λ s. (refl, fitted-nothing s.at s.out.now) };

    ghost joined = { λ s v t w u h k. (k.0 ∙ h.0, fitted-joined v h.1 k.1) };

    fn word(&mut self, w: &[u8]) {
        let end = self.at + w.len();
        self.out[self.at..end].copy_from_slice(w);
        self.at = end;
    }

    fn number(&mut self, n: u64) {
        let mut digits = [0u8; 20];
        let k = io::decimal(n, &mut digits);
        self.word(&digits[..k]);
    }
}
