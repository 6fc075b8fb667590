// The kernels that answer records of one length (docs/REPLAY.md).
ghost use Rattle.std.specs.Prelude.{◌*◌, ◌^◌, ◌<◌};

use crate::input::{Stop, next_material, next_points};
use crate::output;
use refusal::Refusal;
use std::io;
use values::Flat;

#[derive(Clone, Copy)]
pub(crate) enum Kernel {
    QuadraticBending,
    Stvk,
    StvkHessian,
    PlateBending,
    GreenLagrange,
}

// The number, then the N values.
fn put<T: Flat<N> + Drop, const N: usize>(
    rt: &impl Print,
    answer: Result<T, Refusal>,
) -> io::Result<()>
    requires { N * 8 < 2 ^ 63 }
{
    let mut values = [0.0; N];
    let number = values::give(answer, &mut values);
    output::put_answer(rt, number, &values)
}

// Reads the inputs in the record's order.
pub(crate) fn replay(
    rt: &impl Print,
    stdin: &mut impl io::Read,
    kernel: Kernel,
) -> Result<(), Stop> {
    Ok(match kernel {
        Kernel::QuadraticBending => put(
            rt,
            quadratic_bending::wdw(next_points(stdin)?, next_points(stdin)?),
        ),
        Kernel::Stvk => put(rt, stvk_tri3::wdw(next_points(stdin)?, next_points(stdin)?)),
        Kernel::StvkHessian => put(
            rt,
            stvk_tri3::wdwddw_(
                next_points(stdin)?,
                next_points(stdin)?,
                next_material(stdin)?,
            ),
        ),
        Kernel::PlateBending => put(
            rt,
            mitc_tri3::w_dw_ddw_plate_bending(
                next_points(stdin)?,
                next_points(stdin)?,
                next_material(stdin)?,
            ),
        ),
        Kernel::GreenLagrange => put(
            rt,
            stvk_tri3::wdw_green_lagrange(next_points(stdin)?, next_points(stdin)?),
        ),
    }?)
}
