// The decimal digits of a number.
ghost use Rattle.std.specs.Prelude.{◌≡◌, length};
ghost use Rattle.io.specs.Digits.{last_digits};
ghost use Rattle.listing_text.specs.Text.{places as Text·places};

// How many digits n has. Four are passed at a time while there are more, for the price of one
// division; the last one to four are told by comparing.
pub fn places(n: u64) -> usize
    ensures { result ≡ Text·places 20 n }
{
    let mut rest = n;
    let mut passed: usize = 0;
    while rest >= 10000 {
        rest /= 10000;
        passed += 4;
    }
    if rest < 10 {
        return passed + 1;
    }
    if rest < 100 {
        return passed + 2;
    }
    if rest < 1000 {
        return passed + 3;
    }
    passed + 4
}

// Fills the cells with the last digits of n, from the last to the first: division by ten gives the
// last one.
pub fn put_digits(cells: &mut [u8], n: u64)
    ensures { cells.new ≡ last_digits 10 (length cells.old) n }
{
    let mut rest = n;
    for i in (0..cells.len()).rev() {
        cells[i] = b'0' + (rest % 10) as u8;
        rest /= 10;
    }
}
