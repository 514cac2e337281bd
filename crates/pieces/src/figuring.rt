// A number with its sign: its size, the whole of it, and a part of it.
ghost use Rattle.std.specs.Prelude.{◌≡◌, ◌-◌, ◌≤◌, length};
ghost use Rattle.pieces.specs.Bytes.{part, digits_in, figure_of, GoodFigure};

use super::Figure;
use super::copying::copy_part;
use numbers::{digit_count, fill_digits, grouped_size, write_grouped};

impl Figure {
    // The size of the digits, with their separators.
    #[tactic(auto, using(crate::proofs::Numerals::ungrouped, crate::proofs::Numerals::in_groups))]
    fn digits_size(self) -> usize
        requires { GoodFigure self }
        ensures size { result ≡ length (digits_in self) }
        ensures within { result ≤ 127 }
    {
        let count = digit_count(self.base, self.magnitude);
        if self.width == 0 {
            return count;
        }
        grouped_size(count, self.width)
    }

    #[tactic(auto, using(crate::proofs::Numerals::unsigned, crate::proofs::Numerals::with_sign))]
    pub fn size(self) -> usize
        requires { GoodFigure self }
        ensures size { result ≡ length (figure_of self) }
        ensures within { result ≤ 128 }
    {
        let size = self.digits_size();
        if self.sign == 0 { size } else { size + 1 }
    }

    // The digits. Without groups they go straight to their place.
    #[tactic(auto, using(crate::proofs::Numerals::ungrouped, crate::proofs::Numerals::in_groups))]
    fn write_digits(self, out: &mut [u8])
        requires good_figure { GoodFigure self }
        requires out_len { length out.old ≡ length (digits_in self) }
        ensures { out.new ≡ digits_in self }
    {
        if self.width == 0 {
            fill_digits(self.base, self.magnitude, out);
            return;
        }
        let count = digit_count(self.base, self.magnitude);
        let mut digits = [0; 64];
        fill_digits(self.base, self.magnitude, &mut digits[..count]);
        write_grouped(&digits[..count], self.width, self.comma, out);
    }

    // The sign and the digits.
    #[tactic(auto, using(crate::proofs::Numerals::unsigned, crate::proofs::Numerals::with_sign))]
    fn write_whole(self, out: &mut [u8])
        requires good_figure { GoodFigure self }
        requires out_len { length out.old ≡ length (figure_of self) }
        ensures { out.new ≡ figure_of self }
    {
        if self.sign == 0 {
            self.write_digits(out);
            return;
        }
        out[0] = self.sign;
        self.write_digits(&mut out[1..]);
    }

    // A part, by way of a local array, or all of it. Where the whole is asked for, the compiler knows it and drops the test.
    #[tactic(auto, using(crate::proofs::Numerals::figure_most))]
    pub fn write_part(self, size: usize, from: usize, out: &mut [u8])
        requires good_figure { GoodFigure self }
        requires size_value { size ≡ length (figure_of self) }
        requires out_len_bound { length out.old ≤ size - from }
        ensures { out.new ≡ part from (length out.old) (figure_of self) }
    {
        if out.len() == size {
            self.write_whole(out);
            return;
        }
        let mut text = [0; 128];
        self.write_whole(&mut text[..size]);
        copy_part(&text[..size], from, out);
    }
}
