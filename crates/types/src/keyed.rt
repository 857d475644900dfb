// The search for the first entry with a key, once for every kind of entry.
ghost use Rattle.std.specs.Prelude.{◌≡◌, Bool};
ghost use Rattle.types.specs.First.{First};

// Entries that can be looked for by a key.
pub trait Keyed<K> {
    // when an entry has a key
    ghost keyed: { K → Self → Bool };

    fn has_key(&self, key: &K) -> bool
        ensures { result ≡ keyed key.now self.now };
}

// The index of the first entry with the key.
pub fn first_with_key<K, T: Keyed<K>>(entries: &[T], key: &K) -> Option<usize>
    ensures first { First (T.keyed key.now) entries.now result }
{
    entries.iter().position(|x| x.has_key(key))
}
