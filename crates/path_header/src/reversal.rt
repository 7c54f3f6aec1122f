ghost use Rattle.std.specs.Prelude.{◌≡◌, map};
ghost use Rattle.path_header.specs.Reversal.{turned_info, reversed_header};

use crate::fields::InfoField;
use crate::header::Header;

impl Header {
    /// Makes this the header of the way back: the segments and all fields in reverse order, each
    /// segment in the other direction, and the packet at the same hop field.
    pub fn reverse(&mut self)
        ensures { self.new ≡ reversed_header self.old }
    {
        self.curr_inf = self.infos.len() as u8 - 1 - self.curr_inf;
        self.curr_hf = self.hops.len() as u8 - 1 - self.curr_hf;
        self.lens = self.lens.reversed();
        turn(&mut self.infos);
        self.infos.reverse();
        self.hops.reverse();
    }
}

/// Marks each segment as travelled in the other direction.
fn turn(infos: &mut [InfoField])
    ensures { infos.new ≡ map turned_info infos.old }
{
    for info in infos.iter_mut() {
        info.construction = !info.construction;
    }
}
