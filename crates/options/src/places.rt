// The places of what a command line can give, by their numbers and by name.
ghost use Rattle.std.specs.Prelude.{◌<◌, ◌≡◌, Some, IfSome, is_some};
ghost use Rattle.options.specs.declared.places.Place.{Place};
ghost use Rattle.options.specs.Places.{argument_of, given, index_of, nothing_given, number_of};

// How many there are in the array that is filled while the command line is read: at each, the number of the argument
// that gives it, 0 where none does.
pub const PLACES: usize = 16;

// Here stands the number of the place whose value comes next, 0 for none.
pub const AWAITED: usize = 0;

// The names of the numbers.
#[derive(Clone, Copy, Debug, PartialEq, Eq)]
pub enum Place {
    Image = 1,
    Record = 2,
    Wired = 3,
    Marks = 4,
    Output = 5,
    Steps = 6,
    Request = 7,
    Count = 8,
    Rom = 9,
    Fill = 10,
    Raw = 11,
    Quiet = 12,
    Help = 13,
}

impl Place {
    // Its number from 0, by which `Places` keeps it.
    fn index(self) -> usize
        ensures value { result ≡ index_of self }
        ensures within { result < 13 }
    {
        self.number() - 1
    }

    pub fn number(self) -> usize
        ensures value { result ≡ number_of self }
        ensures within { result < 16 }
    {
        self as usize
    }

    // The place of a number; a number that is no place's has none.
    pub fn of(number: usize) -> Option<Place>
        ensures named { IfSome result (λ place. number_of place ≡ number) }
        ensures whole { (place : Place) → number_of place ≡ number → result ≡ Some place }
    {
        match number {
            1 => Some(Place::Image),
            2 => Some(Place::Record),
            3 => Some(Place::Wired),
            4 => Some(Place::Marks),
            5 => Some(Place::Output),
            6 => Some(Place::Steps),
            7 => Some(Place::Request),
            8 => Some(Place::Count),
            9 => Some(Place::Rom),
            10 => Some(Place::Fill),
            11 => Some(Place::Raw),
            12 => Some(Place::Quiet),
            13 => Some(Place::Help),
            _ => None,
        }
    }
}

// What the words read so far give: at each place the number of the argument that gives it. The place that is awaited is
// that whose value comes next.
#[derive(Clone, Copy)]
pub struct Places {
    arguments: [Option<usize>; 13],
    pub awaited: Option<Place>,
}

impl Places {
    pub fn new() -> Self
        ensures { result ≡ nothing_given }
    {
        Places {
            arguments: [None; 13],
            awaited: None,
        }
    }

    // The number of the argument that gives a place.
    pub fn argument(&self, place: Place) -> Option<usize>
        ensures { result ≡ argument_of self.now place }
    {
        self.arguments[place.index()]
    }

    // Whether an argument gives it.
    pub fn has(&self, place: Place) -> bool
        ensures { result ≡ is_some (argument_of self.now place) }
    {
        self.argument(place).is_some()
    }

    // Notes which argument gives a place.
    pub fn give(&mut self, place: Place, argument: usize)
        ensures { self.new ≡ given self.old place argument }
    {
        self.arguments[place.index()] = Some(argument);
    }
}

#[cfg(test)]
mod tests {
    use super::*;

    #[test]
    fn argument_is_kept_at_its_place(rt: HostRuntime) {
        let mut places = Places::new();
        assert!(rt; !places.has(Place::Rom));
        places.give(Place::Rom, 0);
        assert!(rt; places.has(Place::Rom));
        assert!(rt; !places.has(Place::Fill));
        let rom = places.argument(Place::Rom);
        assert_eq!(rt; rom, Some(0));
        let fill = places.argument(Place::Fill);
        assert_eq!(rt; fill, None);
    }
}
