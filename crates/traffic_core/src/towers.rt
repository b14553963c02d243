//! The tower of an id.
ghost use Rattle.std.specs.Prelude.{◌<◌, ◌^◌, length, IfOk};
ghost use Rattle.std.specs.Ordering.{int_eq};
ghost use Rattle.std.specs.HashMap.{get};
ghost use Rattle.traffic_core.specs.Lands.{IsIndexOf};

use gh_base::NoMemory;
use std::alloc::Global;
use std::collections::HashMap;

/// The number of the tower of each id.
pub(crate) fn numbers_of(alloc: Global, ids: &[i64]) -> Result<HashMap<i64, u32>, NoMemory>
    requires { length ids.now < 2 ^ 32 }
    ensures { IfOk result (λ numbers. IsIndexOf ids.now (get int_eq numbers)) }
{
    let mut numbers = HashMap::new(alloc);
    let mut number = 0;
    for id in ids {
        numbers.insert(*id, number)?;
        number += 1;
    }
    Ok(numbers)
}
