// A Unicode scalar value, with the fact that it is one. No `==` is derived: a report is told apart by its bytes, and
// none compares two.
ghost use Rattle.std.specs.Prelude.{◌≡◌, true};
ghost use Rattle.std.proofs.Math.Utf8.{scalar};

#[derive(Clone, Copy)]
pub struct Scalar {
    code: char,
    ghost is: { scalar code ≡ true },
}

impl Scalar {
    pub fn new(code: char) -> Scalar
        ensures { result.code ≡ code }
    {
        Scalar { code }
    }

    pub fn code(self) -> char
        ensures { result ≡ self.code }
    {
        self.code
    }
}
