// Places kept in an array: any number of them may be asked for or kept, also where there is no room.
ghost use Rattle.std.specs.Prelude.{◌≡◌, get_or, set};

// The k-th of places; 0 where there are not so many.
pub fn place(places: &[usize], k: usize) -> usize
    ensures { result ≡ get_or places.now k 0 }
{
    places.get(k).copied().unwrap_or(0)
}

// Keeps a place as the k-th, where there is room for it.
pub fn keep(places: &mut [usize], k: usize, place: usize)
    ensures { places.new ≡ set places.old k place }
{
    if k < places.len() {
        places[k] = place;
    }
}
