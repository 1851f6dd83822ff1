//! The laws of states that the exact run reaches. There is no code here.

ghost use Rattle.std.specs.Prelude.{◌≡◌, ◌≢◌, ◌⊎◌, ◌<◌, ◌≤ℤ◌, ◌<ℤ◌, ◌*ℤ◌, ℕ, ℤ, Some, pos};
ghost use Rattle.exact_num.specs.Fraction.{Fraction};
ghost use Rattle.exact_run.specs.Programs.{Program, columns, high_end, low_end, row_column};
ghost use Rattle.exact_run.specs.States.{IsFree, State};
ghost use Rattle.exact_run.specs.Runs.{IsEmpty, IsEmptyMultiplier, IsSolved, IsSolvedMultiplier, IsValueOf, Reaches};
ghost use Rattle.exact_run.specs.declared.ends.End.{End};
ghost use Rattle.exact_run.specs.declared.ends.End.TheVariants.{High, Low};
ghost use Rattle.run_laws.specs.Points.{AreValuesOver, IsProper, IsTimes, Meets, cost_value, row_value};
ghost use Rattle.run_laws.specs.Multipliers.{AreEmptyOver, AreSigned, AreSolvedOver, number, rest};

/// Each place has a basic column of its own, each other column is free, and all numbers that have a meaning are fractions.
pub fn basis_law()
    ensures columns { (p : Program) (steps : ℕ) (s : State) (r : ℕ) → Reaches p steps s → r < p.rows → s.basic r < columns p }
    // Promise: In each state of the exact run the basic columns of two places are two columns
    ensures apart { (p : Program) (steps : ℕ) (s : State) (r q : ℕ) → Reaches p steps s → r < p.rows → q < p.rows → s.basic r ≡ s.basic q → r ≡ q }
    ensures either { (p : Program) (s : State) (j : ℕ) → j < columns p → IsFree p s j ⊎ ((r : ℕ) × (r < p.rows) × (s.basic r ≡ j)) }
    ensures value { (p : Program) (steps : ℕ) (s : State) (r : ℕ) → Reaches p steps s → r < p.rows → 0 < (s.value r).den }
    ensures factor { (p : Program) (steps : ℕ) (s : State) (r j : ℕ) → Reaches p steps s → r < p.rows → IsFree p s j → 0 < (s.factor r j).den }
    ensures cost { (p : Program) (steps : ℕ) (s : State) (j : ℕ) → Reaches p steps s → IsFree p s j → 0 < (s.cost j).den }
{}

/// The cost's factor on a free column that can move has the sign of the end at which it stands: it costs to move it.
pub fn signs_law()
    // Promise: In each state of the exact run no free column that can move saves cost by moving off its end
    ensures low { (p : Program) (steps : ℕ) (s : State) (j : ℕ) → Reaches p steps s → IsFree p s j → high_end p j ≢ Some (low_end p j) → s.stands j ≡ Low
        → pos 0 ≤ℤ (s.cost j).num }
    // Promise: In each state of the exact run no free column that can move saves cost by moving off its end
    ensures high { (p : Program) (steps : ℕ) (s : State) (j : ℕ) → Reaches p steps s → IsFree p s j → high_end p j ≢ Some (low_end p j) → s.stands j ≡ High
        → (s.cost j).num ≤ℤ pos 0 }
    ensures end { (p : Program) (steps : ℕ) (s : State) (j : ℕ) → Reaches p steps s → IsFree p s j → s.stands j ≡ High → (e : ℤ) × (high_end p j ≡ Some e) }
{}

/// The values of a state are a point of the program's rows: a row's column has the row's value there. Where no column is past an end, the
/// point lies between all ends and meets all rows.
pub fn point_law()
    // Promise: In each state of the exact run the value of a row's column is the row's value at the variables' values
    ensures rows { (p : Program) (steps : ℕ) (s : State) (base : ℕ) (values : ℕ → ℤ) (r : ℕ) (x : Fraction) → Reaches p steps s → 0 < base → AreValuesOver p s base values
        → r < p.rows → IsValueOf p s (row_column p r) x → IsTimes (pos base) x (row_value p base values r) }
    // Promise: Where low ends are at most high ends and the exact run ends with a point, the point lies between all ends and meets all rows
    ensures meets { (p : Program) (steps : ℕ) (s : State) (base : ℕ) (values : ℕ → ℤ) → IsProper p → Reaches p steps s → IsSolved p s → 0 < base → AreValuesOver p s base values
        → Meets p base values }
{}

/// The multipliers of a state: each row has one. Whole ones that are so many times them have the signs of their rows, leave on each variable
/// the cost's factor, which is 0 on a basic one, and are added up to what the state's point costs.
pub fn multipliers_law()
    ensures there { (p : Program) (steps : ℕ) (s : State) (r : ℕ) → Reaches p steps s → r < p.rows → (x : Fraction) × (0 < x.den) × IsSolvedMultiplier p s r x }
    ensures one { (p : Program) (s : State) (r : ℕ) (x y : Fraction) → r < p.rows → IsSolvedMultiplier p s r x → IsSolvedMultiplier p s r y → x ≡ y }
    ensures signed { (p : Program) (steps : ℕ) (s : State) (times : ℕ) (mult : ℕ → ℤ) → Reaches p steps s → 0 < times → AreSolvedOver p s times mult → AreSigned p mult }
    ensures free { (p : Program) (steps : ℕ) (s : State) (times : ℕ) (mult : ℕ → ℤ) (v : ℕ) → Reaches p steps s → 0 < times → AreSolvedOver p s times mult
        → v < p.variables → IsFree p s v → IsTimes (pos times) (s.cost v) (rest p times mult v) }
    ensures basic { (p : Program) (steps : ℕ) (s : State) (times : ℕ) (mult : ℕ → ℤ) (v r : ℕ) → Reaches p steps s → 0 < times → AreSolvedOver p s times mult
        → v < p.variables → r < p.rows → s.basic r ≡ v → rest p times mult v ≡ pos 0 }
    // Promise: Where low ends are at most high ends, the multipliers of a state of the exact run are added up to exactly what its point costs
    ensures number { (p : Program) (steps : ℕ) (s : State) (times base : ℕ) (mult values : ℕ → ℤ) → IsProper p → Reaches p steps s → 0 < times → AreSolvedOver p s times mult
        → 0 < base → AreValuesOver p s base values → number p times mult *ℤ pos base ≡ pos times *ℤ cost_value p values }
{}

/// The multipliers where a column is to leave and none may enter: each row has one. Whole ones that are so many times them have the signs of
/// their rows, and are added up, without the cost, to more than 0.
pub fn empty_law()
    ensures there { (p : Program) (steps : ℕ) (s : State) (place : ℕ) (side : End) (r : ℕ) → Reaches p steps s → place < p.rows → r < p.rows
        → (x : Fraction) × (0 < x.den) × IsEmptyMultiplier p s place side r x }
    ensures one { (p : Program) (s : State) (place : ℕ) (side : End) (r : ℕ) (x y : Fraction) → r < p.rows → IsEmptyMultiplier p s place side r x
        → IsEmptyMultiplier p s place side r y → x ≡ y }
    ensures signed { (p : Program) (steps : ℕ) (s : State) (place : ℕ) (side : End) (end : ℤ) (times : ℕ) (mult : ℕ → ℤ) → Reaches p steps s → IsEmpty p s place side end
        → 0 < times → AreEmptyOver p s place side times mult → AreSigned p mult }
    // Promise: Where low ends are at most high ends and the exact run ends without a point, its multipliers without the cost are added up to more
    //   than 0
    ensures number { (p : Program) (steps : ℕ) (s : State) (place : ℕ) (side : End) (end : ℤ) (times : ℕ) (mult : ℕ → ℤ) → IsProper p → Reaches p steps s
        → IsEmpty p s place side end → 0 < times → AreEmptyOver p s place side times mult → pos 0 <ℤ number p 0 mult }
{}

/// What multipliers are added up to is at most the scaled cost of each point that meets the program. So a run that ends with a point gives a
/// best one, and where it ends without a point there is none.
pub fn best_law()
    ensures duality { (p : Program) (scale base : ℕ) (mult values : ℕ → ℤ) → AreSigned p mult → Meets p base values
        → (number p scale mult *ℤ pos base) ≤ℤ (pos scale *ℤ cost_value p values) }
    // Promise: In each state of the exact run the point costs no more than any point that meets the program
    ensures best { (p : Program) (steps : ℕ) (s : State) (base other : ℕ) (values point : ℕ → ℤ) → Reaches p steps s → 0 < base → AreValuesOver p s base values
        → 0 < other → Meets p other point → (cost_value p values *ℤ pos other) ≤ℤ (cost_value p point *ℤ pos base) }
    // Promise: Where the exact run ends without a point, no point meets the program
    ensures none { (p : Program) (steps : ℕ) (s : State) (place : ℕ) (side : End) (end : ℤ) (base : ℕ) (values : ℕ → ℤ) → Reaches p steps s
        → IsEmpty p s place side end → 0 < base → ¬ Meets p base values }
{}
