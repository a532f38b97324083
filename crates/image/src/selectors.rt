// The plain model's bytes of the selectors: whether the values meet the comparison of each.
ghost use Rattle.std.specs.Prelude.{◌≡◌, [], ◌≤◌, length};
ghost use Rattle.definitions.specs.Encoding.{selections};
ghost use Rattle.definitions.specs.Meaning.{assigned};
ghost use Rattle.judge.specs.Suited.{Near};
ghost use Rattle.laws.specs.Boards.{board_of};
ghost use Rattle.laws.specs.Written.{written};
ghost use Rattle.image.specs.Parts.{selector_bytes};

use judge::literals::compares;
use opening::record::Record;
use rules::Piece;
use rules::pass::pieces;

// Of the pieces of the rules, a comparison under its selector has a byte.
pub fn put_selectors(opened: &Record, values: &[i32], model: &mut [u8]) -> usize
    requires { (length values.now ≡ length (board_of opened.now).bounds) × Near values.now × (length (selections (board_of opened.now)) ≤ length model.old) }
    ensures { (result ≡ length (selections (board_of opened.now))) × (model.new ≡ written (selector_bytes (assigned values.now []) (selections (board_of opened.now))) model.old) }
{
    let rules = opened.rules();
    let mut at = 0;
    for piece in pieces(opened) {
        if let Piece::Led {
            place,
            constant,
            ..
        } = piece
        {
            model[at] = u8::from(compares(rules, values, place, constant));
            at += 1;
        }
    }
    at
}
