//! Laws over definitions alone. They take no memory and do nothing: a caller learns what they
//! ensure.

ghost use Rattle.hilti_places.specs.InTurn.{
  ItemsApart,
  ItemsInTurn,
  KeepsTokens,
  NameKept,
  NamesRise,
  PlacesRise,
  TokensRise,
};

/// The places of the tokens of a text rise.
pub fn tokens_rise()
    ensures { TokensRise }
{}

/// A module's tree keeps tokens of its text, each at most once, in their order.
pub fn keeps_tokens()
    ensures { KeepsTokens }
{}

/// The places in the tree of a module, in the tree's order, rise.
pub fn places_rise()
    ensures { PlacesRise }
{}

/// The places in a module's tree are those of its name, then that of its version where it is written,
/// and then those of its items, one item behind another.
pub fn items_in_turn()
    ensures { ItemsInTurn }
{}

/// Every place of an earlier item of a module is before every place of a later one.
pub fn items_apart()
    ensures { ItemsApart }
{}

/// The place of an item's name is among its places.
pub fn name_kept()
    ensures { NameKept }
{}

/// The places of the name of a module, of its version and of the names of its items rise.
pub fn names_rise()
    ensures { NamesRise }
{}
