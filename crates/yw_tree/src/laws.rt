//! Laws of the forest and its map, for the crates above. Each is the contract of a function that does nothing: it holds of all
//! forests.
ghost use Rattle.std.specs.Prelude.{◌≡◌, ℕ, List, Some, true};
ghost use Rattle.yw_base.specs.Identity.{is_identity, child};
ghost use Rattle.yw_state.specs.Identity.{Ident};
ghost use Rattle.yw_state.specs.Map.{update};
ghost use Rattle.yw_state.specs.State.{Site, Sites};
ghost use Rattle.yw_tree.specs.Changes.{ChangesItem, ChangesNet};
ghost use Rattle.yw_tree.specs.Coming.{AreDrawn, ComesAfter};
ghost use Rattle.yw_tree.specs.Entries.{item_site};
ghost use Rattle.yw_tree.specs.Forest.{IsForest, item_replaced, sites_of};
ghost use Rattle.yw_tree.specs.Places.{net_at, placed_net};
ghost use Rattle.yw_tree.specs.declared.Forest.{Forest};
ghost use Rattle.yw_tree.specs.declared.NetState.{NetState};
ghost use Rattle.yw_tree.specs.declared.Node.{Node};

/// Where an item keeps its identity, its task, its net and its run, the map changes at its identity alone.
pub fn item_changes()
    ensures site { (names : ℕ → List ℕ) (f : Forest) (id : Ident) (old w : Node) (h : Site → Site) → ChangesItem f id old w
        → item_site names w ≡ h (item_site names old) → sites_of names (item_replaced f id w) ≡ update (sites_of names f) id h }
    ensures kept { (f : Forest) (id : Ident) (old w : Node) → ChangesItem f id old w → IsForest (item_replaced f id w) }
{}

/// Where a net changes and no item comes, the forest's map is each that shows the new net (`ChangesNet`).
pub fn net_changes()
    ensures { (names : ℕ → List ℕ) (f : Forest) (id : Ident) (s w : NetState) (m : Sites)
        → IsForest f → is_identity id ≡ true → net_at f id ≡ Some s → ChangesNet names f id s w m
        → (sites_of names (placed_net f id w) ≡ m) × IsForest (placed_net f id w) }
{}

/// A number above all that were drawn comes after all that stands directly under an identity: there an item may come with it.
pub fn drawn_comes_last()
    ensures { (f : Forest) (id : Ident) (n : ℕ) → IsForest f → is_identity id ≡ true → AreDrawn f n → ComesAfter f id (child id n) }
{}
