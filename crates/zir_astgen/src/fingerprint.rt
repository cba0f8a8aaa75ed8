// A number made of a part's text, which tells most changes at once. It decides nothing.
ghost use Rattle.std.specs.Prelude.{◌≡◌, true};
ghost use Rattle.zig_tree.specs.Nodes.{are_earlier};

use crate::file::FileSource;
use crate::outline::lead_of;
use zig_tree::Kid;

impl FileSource<'_> {
    /// A number made of the first bytes of a part, from its first token on.
    pub fn fingerprint(&self, row: &[Kid], before: u32) -> u64
        requires { are_earlier before row.now ≡ true }
    {
        let start = self.start_of(lead_of(self.outline, row, before)) as usize;
        let mut number: u64 = 0xcbf2_9ce4_8422_2325;
        let text = self.text.get(start..).unwrap_or(&[]);
        for byte in text.iter().take(64) {
            number = (number ^ *byte as u64).wrapping_mul(0x100_0000_01b3);
        }
        number
    }
}
