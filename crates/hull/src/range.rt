// Numbers within a limit.
ghost use Rattle.std.specs.Prelude.{◌↔◌, IsTrue};
ghost use Rattle.hull.specs.Units.{Within};

// Whether none of three numbers is beyond a limit.
#[inline(always)]
pub fn within(limit: u64, x: i64, y: i64, z: i64) -> bool
    ensures { IsTrue result ↔ Within limit x y z }
{
    x.unsigned_abs() <= limit && y.unsigned_abs() <= limit && z.unsigned_abs() <= limit
}
