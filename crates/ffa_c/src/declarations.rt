// SPDX-License-Identifier: MIT OR Apache-2.0
//! The number of the declarations by which the library was built.
ghost use Rattle.std.specs.Prelude.{◌≡◌};

use crate::codes::DECLARATIONS;

/// Returns the number of the declarations by which the library was built: `GORSEPLUMB_DECLARATIONS` of its header. A
/// program that loads the library while it runs compares the two numbers.
#[unsafe(no_mangle)]
pub extern "C" fn gorseplumb_declarations() -> u32
    ensures { result ≡ DECLARATIONS }
{
    DECLARATIONS
}
