// A case: calls on one assembler, from fresh memory on, and how far its code is compared.
use assembler::Asm;
use refusal::Refused;

#[derive(Clone, Copy)]
pub struct Case {
    pub asm: Asm,
    // the number that a call answered, 0 before one does, or the last refusal
    pub answer: Result<u32, Refused>,
    // the place of the next word to compare
    pub at: usize,
    // no row of the case disagreed
    pub good: bool,
    // the answer is not reached yet
    pub open: bool,
}

pub(crate) fn same(a: Asm, b: Asm) -> bool {
    a.len == b.len && a.jumps == b.jumps && a.closed == b.closed
}

impl Case {
    pub(crate) fn fresh() -> Case {
        Case {
            asm: Asm {
                len: 0,
                jumps: 0,
                closed: false,
            },
            answer: Ok(0),
            at: 0,
            good: true,
            open: true,
        }
    }

    pub(crate) fn closed(self) -> Case {
        Case {
            good: true,
            open: false,
            ..self
        }
    }

    // A row that agrees, or not.
    pub(crate) fn checked(self, ok: bool) -> Case {
        Case {
            good: self.good && ok,
            ..self
        }
    }

    // Another record.
    pub(crate) fn lent(self, asm: Asm) -> Case {
        Case { asm, ..self }
    }

    // n words further.
    pub(crate) fn moved(self, n: usize) -> Case {
        if self.at > 65536 || n > 65536 {
            return self;
        }
        Case {
            at: self.at + 4 * n,
            ..self
        }
    }

    // A call refused.
    pub(crate) fn refused(self, r: Refused) -> Case {
        Case {
            answer: Err(r),
            ..self
        }
    }

    // A call that answered a number.
    pub(crate) fn valued(self, n: u32) -> Case {
        Case {
            answer: self.answer.and(Ok(n)),
            ..self
        }
    }

    // A call done. A refused one leaves the record as it was, and no call comes behind it.
    pub(crate) fn done(self, asm: Asm, answer: Result<(), Refused>) -> Case {
        let d = self.checked(self.answer.is_ok()).lent(asm);
        match answer {
            Ok(()) => d,
            Err(r) => d.checked(same(self.asm, asm)).refused(r),
        }
    }

    // The last call was refused with this number at this place, or with both 0 none was.
    pub(crate) fn refuses(self, number: u32, place: u32) -> bool {
        match self.answer {
            Ok(_) => number == 0 && place == 0,
            Err(r) => refusal::number(r.why) as u32 == number && r.place == place,
        }
    }
}

// ---- the code

// The first n of four words stand at a place.
pub(crate) fn stand(buf: &[u8; 65536], at: usize, words: [u32; 4], n: usize) -> bool {
    at <= 65536 && n <= 4 && (0..n).all(|i| test_rows::word_at(buf, at + 4 * i) == words[i])
}

// The bytes from a up to e are zero.
pub(crate) fn blank(buf: &[u8; 65536], a: usize, e: usize) -> bool {
    buf.get(a..e).is_some_and(|b| test_rows::all(b, 0))
}
