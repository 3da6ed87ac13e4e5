ghost use Rattle.std.specs.Prelude.{◌≡◌};
ghost use Rattle.ctrl_model.specs.declared.addresses.Address.TheVariants.{Host, Under, Range};
ghost use Rattle.ctrl_model.specs.AddressForm.{first_bits};
ghost use Rattle.ctrl_model.specs.Hits.{labels_before, nearness};

use ctrl_model::{Address, MOST_BITS};

// How many labels a host has before a dot and a text that ends it, if it ends so.
fn labels_before(text: &[u8], host: &[u8]) -> Option<usize>
    ensures { result ≡ labels_before text.now host.now }
{
    let mut labels = 0;
    'places: for place in 0..host.len() {
        if host[place] == b'.' {
            labels += 1;
            if &host[place + 1..] == text {
                return Some(labels);
            }
        }
    }
    None
}

// How near a host is to a destination: it has itself alone.
fn of_host(text: &[u8], to: &Address) -> Option<usize>
    ensures { result ≡ nearness (Host text.now) to.now }
{
    match to {
        Address::Host { text: to } if text == to.as_slice() => Some(0),
        _ => None,
    }
}

// How near what is under a host is to a destination.
fn of_under(text: &[u8], to: &Address) -> Option<usize>
    ensures { result ≡ nearness (Under text.now) to.now }
{
    match to {
        Address::Host { text: to } => labels_before(text, to.as_slice()),
        _ => None,
    }
}

// The first bits of an address, with the others read as 0.
fn first_bits(bits: u8, ip: u32) -> u32
    ensures { result ≡ first_bits bits ip }
{
    let size = 2_u64.pow(u32::from(MOST_BITS.saturating_sub(bits)));
    let past = u64::from(ip) % size;
    ip - past as u32
}

// How near a range is to a destination: as far as it has bits beside its own.
fn of_range(ip: u32, bits: u8, to: &Address) -> Option<usize>
    ensures { result ≡ nearness (Range ip bits) to.now }
{
    match to {
        Address::Range { ip: to, .. } if first_bits(bits, *to) == ip => {
            Some(usize::from(MOST_BITS.saturating_sub(bits)))
        }
        _ => None,
    }
}

/// How near an address is to a destination, if it has it.
pub fn nearness(address: &Address, to: &Address) -> Option<usize>
    ensures { result ≡ nearness address.now to.now }
{
    match address {
        Address::Host { text } => of_host(text.as_slice(), to),
        Address::Under { text } => of_under(text.as_slice(), to),
        Address::Range { ip, bits } => of_range(*ip, *bits, to),
    }
}
