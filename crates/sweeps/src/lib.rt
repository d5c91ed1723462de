// Sweeps over a whole slice. None has a way out before the slice's end, so that the compiler can take several entries in one step.
#![tactic(auto)]

ghost use Rattle.std.specs.Prelude.{◌≡◌, ◌+◌, ◌-◌, eqb, ltb, length, get_or};
ghost use Rattle.model.specs.Words.{some_below, row};
ghost use Rattle.laws.specs.Marks.{noted};
ghost use Rattle.sweeps.specs.Clauses.{Greatest, Clear};

// The greatest of the numbers, 0 where there is none.
pub fn greatest(numbers: &[u16]) -> u16
    ensures { Greatest numbers.now result }
{
    numbers.iter().copied().max().unwrap_or(0)
}

// Whether one of the numbers is above the one before it.
pub fn rises(numbers: &[u16]) -> bool
    ensures { result ≡ some_below (λ q. ltb (get_or numbers.now q 0) (get_or numbers.now (q + 1) 0))
        (length numbers.now - 1) }
{
    let mut found = false;
    for q in 1..numbers.len() {
        found |= numbers[q - 1] < numbers[q];
    }
    found
}

// Whether one of the numbers is 0.
pub fn has_zero(numbers: &[u16]) -> bool
    ensures { result ≡ some_below (λ q. eqb (get_or numbers.now q 0) 0) (length numbers.now) }
{
    let mut found = false;
    for number in numbers {
        found |= *number == 0;
    }
    found
}

// Notes each item's position, from 1, at its own place; where an item stands twice the later position stays.
pub fn note_items(items: &[u16], places: &mut [u16])
    requires { Clear items.now places.old }
    ensures { places.new ≡ row (noted (λ q. get_or items.now q 0) (length items.now))
        (length places.old) }
{
    for (q, item) in items.iter().enumerate() {
        places[usize::from(*item)] = (q + 1) as u16;
    }
}
