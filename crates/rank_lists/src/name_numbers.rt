// The name of a type as one number.
ghost use Rattle.std.specs.Prelude.{◌≡◌, ◌≤◌, length};
ghost use Rattle.rank_lists.specs.Groups.{name_number as number_of_name};

use place_base::limits::LONGEST_NAME;

/// The bytes of a type's name as one number, which no other name has.
pub(crate) fn name_number(bytes: &[u8]) -> u64
    requires { length bytes.now ≤ LONGEST_NAME }
    ensures { result ≡ number_of_name bytes.now }
{
    let mut number = 0;
    let mut left = bytes.len();
    'bytes: while left > 0 {
        left -= 1;
        number = number * 256 + u64::from(bytes[left]);
    }
    number
}
