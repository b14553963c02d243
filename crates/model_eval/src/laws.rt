//! Laws of runs, as functions without a body: their clauses say them.
ghost use Rattle.std.specs.Prelude.{◌≡◌, ◌≤◌, ℕ, List, IsTrue};
ghost use Rattle.encoded_values.specs.Values.{Values};
ghost use Rattle.model_eval.specs.Running.{run};
ghost use Rattle.model_eval.specs.Slowing.{AreStored, are_slowing};
ghost use Rattle.model_eval.specs.declared.custom_model.Running.{Running};
ghost use Rattle.model_eval.specs.declared.custom_model.Statement.{Statement};

use encoded_values::DirValues;

/// From a greater number a run ends at least as high.
pub fn keeps_order()
    ensures { (running : Running) (ss : List Statement) (values : Values) (areas x y : ℕ) → x ≤ y → run running ss values areas x ≤ run running ss values areas y }
{}

/// Without a factor above 1 a run ends no higher than it began.
pub fn slow_runs_raise_nothing()
    ensures { (running : Running) (ss : List Statement) (values : Values) (areas x : ℕ) → IsTrue (are_slowing ss) → AreStored values → run running ss values areas x ≤ x }
{}

/// The values of a directed edge are in the ranges that are stored.
pub fn values_are_stored(values: &DirValues)
    ensures { AreStored values.now }
{
    let _lanes = values.lanes;
    let _max_speed = values.max_speed;
    let _car = values.car_speed;
    let _bike = values.bike_speed;
    let _foot = values.foot_speed;
}
