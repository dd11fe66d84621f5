// The table made whole, and the parity of a chunk by it.
ghost use Rattle.std.specs.Prelude.{◌≡◌, ◌≤◌, length};
ghost use Rattle.base_rules.specs.Bounds.{most_k};
ghost use Rattle.codeword.specs.Code.{parity_of};
ghost use Rattle.code_rules.specs.inner.Words.{table-size};
ghost use Rattle.code_rules.specs.inner.Kernel.{Made};
ghost use Rattle.code_encoder.specs.inner.Tables.{Made-prop};

use crate::register::parity_of;
use crate::rows::{TABLE, make_table};
use base::PARITY;

// A table that is made whole. It is lent, and not held: it is too large to be moved about.
#[derive(Clone, Copy)]
pub(crate) struct MadeTable<'a> {
    bytes: &'a [u8; TABLE],
    ghost made: { Made bytes.now table-size } by { Made-prop bytes.now table-size },
}

impl<'a> MadeTable<'a> {
    // Makes the table in the bytes lent.
    pub(crate) fn make(bytes: &'a mut [u8; TABLE]) -> MadeTable<'a> {
        make_table(bytes);
        MadeTable { bytes }
    }

    // The parity of the data bytes d.
    pub(crate) fn parity(self, d: &[u8]) -> [u8; PARITY]
        requires { length d.now ≤ most_k }
        ensures { result ≡ parity_of d.now }
    {
        parity_of(self.bytes, d)
    }
}
