//! Numbers of statements in four bytes.

ghost use Rattle.std.specs.Prelude.{◌≡◌, IfOk};

use design_model::identifier::StmtId;
use std::alloc::AllocError;
use std::marker::Model;

/// How many numbers a half tells apart.
const HALF: usize = 65536;

/// A number of a statement, in two halves, so that a mark takes six bytes.
#[derive(Clone, Copy)]
pub struct SmallId {
    high: u16,
    low: u16,
}

impl Model for SmallId {
    ghost use Rattle.std.specs.Prelude.{◌≡◌, ◌+◌, ◌*◌, ◌<◌, ◌/◌, ◌%◌};
    ghost use Rattle.std.proofs.Common.{arith};
    ghost use Rattle.design_model.specs.declared.identifier.StmtId.{StmtId as TheStmtId};

    ghost Value = { TheStmtId };

    ghost view = { λ n. record { 0 = 65536 * n.high + n.low } };

    ghost invariant = { λ n. n.low < 65536 };

    ghost inverse = { λ id. record { high = id.0 / 65536; low = id.0 % 65536 } };

    ghost inverse_ok = { λ n h.
        let high : (65536 * n.high + n.low) / 65536 ≡ n.high = omega (arith, h) in
        let low : (65536 * n.high + n.low) % 65536 ≡ n.low = omega (arith, h) in
        λ i. record { high = high i; low = low i } };
}

impl SmallId {
    /// The number in four bytes. One that has more is refused as memory is.
    pub(crate) fn new(id: StmtId) -> Result<SmallId, AllocError>
        ensures { IfOk result (λ n. n ≡ id) }
    {
        if id.0 >= HALF * HALF {
            return Err(AllocError);
        }
        Ok(SmallId {
            high: (id.0 / HALF) as u16,
            low: (id.0 % HALF) as u16,
        })
    }

    /// The number.
    pub(crate) fn get(self) -> StmtId
        ensures { result ≡ self }
    {
        StmtId(HALF * self.high as usize + self.low as usize)
    }
}
