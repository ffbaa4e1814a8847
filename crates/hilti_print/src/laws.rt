//! Laws of the definitions that the contracts of this crate cite. They do nothing when they are called.
ghost use Rattle.std.specs.Prelude.{◌≡◌, ◌^◌, ◌<◌, ℕ, List};
ghost use Rattle.std.specs.Net.Text.{hex_groups_text, longest_zero_run};
ghost use Rattle.hilti_addr.specs.declared.net.Net.{Net};
ghost use Rattle.hilti_addr.specs.Texts.{IsAddress, IsNet};
ghost use Rattle.hilti_print.specs.Addresses.{IsGroupsText, IsLongestRun, IsMasked};
ghost use Rattle.hilti_print.specs.Addresses.{address_literal, net_literal};

/// Groups have one run of zeros that is the first of the longest, and `::` stands for it in their text.
pub fn first_longest()
    ensures stands { (groups : List ℕ)
        → IsLongestRun groups (longest_zero_run groups).0 (longest_zero_run groups).1 }
    ensures one { (groups : List ℕ) (start count start' count' : ℕ)
        → IsLongestRun groups start count → IsLongestRun groups start' count'
        → (start ≡ start') × (count ≡ count') }
    ensures shown { (groups : List ℕ) → IsGroupsText groups (hex_groups_text groups) }
{}

/// A text of an address is read as that address: as it stands of an IPv4 one, between brackets of another.
pub fn read_back()
    ensures { (address : ℕ) → address < 2 ^ 128 → IsAddress (address_literal address) address }
{}

/// A text of a net is read as that net, likewise.
pub fn read_net_back()
    ensures { (net : Net) → IsMasked net → IsNet (net_literal net) net }
{}
