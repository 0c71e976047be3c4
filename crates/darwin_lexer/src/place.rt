//! Places in a text.

ghost use Rattle.std.specs.Prelude.{◌≡◌, ◌+◌, ◌<◌, ◌≤◌, ◌^◌, fold, length};

use crate::token::At;

impl At {
    ghost use Rattle.darwin_lexer.specs.Positions.{next};

    /// The place of a text's first byte.
    pub const START: At = At { line: 1, column: 1 };

    /// The place after `bytes` that begin here.
    pub fn after(self, bytes: &[u8]) -> At
        requires lines_fit { self.line + length bytes.now < 2 ^ 32 }
        requires columns_fit { self.column + length bytes.now < 2 ^ 32 }
        ensures place { result ≡ fold next self bytes.now }
        ensures line { result.line ≤ self.line + length bytes.now }
        ensures column { result.column ≤ self.column + length bytes.now }
    {
        let mut at = self;
        for byte in bytes {
            at = at.next(*byte);
        }
        at
    }

    fn next(self, byte: u8) -> At
        requires line_fits { self.line + 1 < 2 ^ 32 }
        requires column_fits { self.column + 1 < 2 ^ 32 }
        ensures { result ≡ next self byte }
    {
        if byte == b'\n' {
            At {
                line: self.line + 1,
                column: 1,
            }
        } else {
            At {
                line: self.line,
                column: self.column + 1,
            }
        }
    }
}
