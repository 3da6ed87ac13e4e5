ghost use Rattle.std.specs.Prelude.{◌≡◌, true, false, None, Some, [], codes, replicate};
ghost use Rattle.ctrl_model.specs.AddressForm.{address_of, address_text, is_spelling, is_range_spelling};
ghost use Rattle.ctrl_model.specs.declared.addresses.Address.TheVariants.{Host, Under, Range};

/// Hosts are read in small letters; the last label has a byte that is no digit, and no label is empty or has another byte.
pub fn hosts_of_bytes()
    ensures capitals { address_of (codes "Web.Example-1.com") ≡ Some (Host (codes "web.example-1.com")) }
    ensures low_line { address_of (codes "_sip._tcp") ≡ Some (Host (codes "_sip._tcp")) }
    ensures one_label { address_of (codes "a") ≡ Some (Host (codes "a")) }
    ensures digits_inside { address_of (codes "1.2.3.4.5a") ≡ Some (Host (codes "1.2.3.4.5a")) }
    ensures under { address_of (codes "*.Example.com") ≡ Some (Under (codes "example.com")) }
    ensures empty { address_of [] ≡ None }
    ensures empty_label { address_of (codes "a..b") ≡ None }
    ensures last_dot { address_of (codes "a.b.") ≡ None }
    ensures first_dot { address_of (codes ".a") ≡ None }
    ensures digits_last { address_of (codes "1.2.3") ≡ None }
    ensures space { address_of (codes "a b") ≡ None }
    ensures star_alone { address_of (codes "*.") ≡ None }
    ensures star_inside { address_of (codes "a.*.b") ≡ None }
    ensures two_stars { address_of (codes "*.*.b") ≡ None }
    ensures octet_like { address_of (codes "1.2.3.4x") ≡ Some (Host (codes "1.2.3.4x")) }
    ensures capital_alone { address_of (codes "A") ≡ Some (Host (codes "a")) }
    ensures dot_alone { address_of (codes ".") ≡ None }
    ensures star_inside_a_label { address_of (codes "*a.b") ≡ None }
    ensures five_numbers { address_of (codes "1.2.3.4.5") ≡ None }
    ensures long_label { address_of (replicate 63 97) ≡ Some (Host (replicate 63 97)) }
    ensures longer_label { address_of (replicate 64 97) ≡ None }
    ensures under_a_range { address_of (codes "*.10.0.0.1") ≡ None }
{}

/// Ranges have four numbers from 0 to 255 without leading zeros, and from 0 to 32 bits; the bits past those are read as 0.
pub fn ranges_of_bytes()
    ensures alone { address_of (codes "10.1.2.3") ≡ Some (Range 167838211 32) }
    ensures eight { address_of (codes "10.1.2.3/8") ≡ Some (Range 167772160 8) }
    ensures whole { address_of (codes "10.1.2.3/32") ≡ Some (Range 167838211 32) }
    ensures none { address_of (codes "10.1.2.3/0") ≡ Some (Range 0 0) }
    ensures odd { address_of (codes "10.1.2.3/31") ≡ Some (Range 167838210 31) }
    ensures greatest { address_of (codes "255.255.255.255") ≡ Some (Range 4294967295 32) }
    ensures too_many { address_of (codes "10.1.2.3/33") ≡ None }
    ensures leading_zero { address_of (codes "10.1.2.03") ≡ None }
    ensures zero_bits { address_of (codes "10.1.2.3/08") ≡ None }
    ensures above { address_of (codes "256.1.1.1") ≡ None }
    ensures three { address_of (codes "10.1.2/8") ≡ None }
    ensures no_bits { address_of (codes "10.1.2.3/") ≡ None }
    ensures twice { address_of (codes "10.1.2.3/8/8") ≡ None }
    ensures of_a_host { address_of (codes "a/8") ≡ None }
{}

/// Which bytes are the one spelling of an address.
pub fn own_spellings()
    ensures host { is_spelling (codes "web.example.org") ≡ true }
    ensures capital { is_spelling (codes "Web") ≡ false }
    ensures under { is_spelling (codes "*.example.org") ≡ true }
    ensures under_capital { is_spelling (codes "*.Example.org") ≡ false }
    ensures alone { is_spelling (codes "10.1.2.3") ≡ true }
    ensures sixteen { is_spelling (codes "10.1.0.0/16") ≡ true }
    ensures all_bits { is_spelling (codes "10.1.2.3/32") ≡ false }
    ensures bits_past_the_range { is_spelling (codes "10.1.2.3/8") ≡ false }
    ensures no_bits { is_spelling (codes "0.0.0.0/0") ≡ true }
    ensures none { is_spelling (codes "a..b") ≡ false }
    ensures empty { is_spelling [] ≡ false }
    ensures range_alone { is_range_spelling (codes "10.1.0.0/16") ≡ true }
    ensures host_alone { is_range_spelling (codes "web") ≡ false }
{}

/// Each address has one spelling.
pub fn spelled_addresses()
    ensures host { address_text (Host (codes "web")) ≡ codes "web" }
    ensures under { address_text (Under (codes "example.com")) ≡ codes "*.example.com" }
    ensures alone { address_text (Range 167838211 32) ≡ codes "10.1.2.3" }
    ensures eight { address_text (Range 167772160 8) ≡ codes "10.0.0.0/8" }
    ensures none { address_text (Range 0 0) ≡ codes "0.0.0.0/0" }
    ensures three_digits { address_text (Range 3232235776 24) ≡ codes "192.168.1.0/24" }
{}
