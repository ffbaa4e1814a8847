//! Laws of the definitions that the contracts of this crate cite. They do nothing when they are called.
ghost use Rattle.std.specs.Prelude.{◌≡◌, ℕ, List};
ghost use Rattle.hilti_addr.specs.declared.net.Net.{Net};
ghost use Rattle.hilti_addr.specs.declared.port.Port.{Port};
ghost use Rattle.hilti_addr.specs.Texts.{IsAddress, IsNet, IsPort};

/// A text is read as one address.
pub fn one_address()
    ensures { (text : List ℕ) (address other : ℕ)
        → IsAddress text address → IsAddress text other → address ≡ other }
{}

/// A text is read as one net.
pub fn one_net()
    ensures { (text : List ℕ) (net other : Net) → IsNet text net → IsNet text other → net ≡ other }
{}

/// A text is read as one port.
pub fn one_port()
    ensures { (text : List ℕ) (port other : Port)
        → IsPort text port → IsPort text other → port ≡ other }
{}
