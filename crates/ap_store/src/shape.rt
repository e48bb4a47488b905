//! The numbers of a register file.
ghost use Rattle.std.specs.Prelude.{◌≡◌, ◌^◌, ◌≤◌, IsTrue};
ghost use Rattle.ap_desc.specs.Designs.{index_bits, is_file_within};

use ap_desc::design::File;

/// How many bits number the cells of a file.
pub fn index_width(file: &File) -> u32
    requires { IsTrue (is_file_within file.now) }
    ensures bits { result ≡ index_bits file.now }
    ensures cells { 2 ^ result ≡ file.now.cells }
    ensures low { 1 ≤ result }
    ensures high { result ≤ 6 }
{
    file.cells.trailing_zeros()
}
