//! Laws of maps of sites. Each is the contract of a function that does nothing: it holds of all maps and lists.
ghost use Rattle.std.specs.Prelude.{◌≡◌, ◌∷◌, ◌++◌, cond, false, Bool, IsTrue, None, List, []};
ghost use Rattle.std.specs.FinMap.Entries.{find};
ghost use Rattle.std.specs.List.{list_any};
ghost use Rattle.yw_sites.specs.Entries.{AllUnder, Entries, Entry, Swaps, Unique, under_any};
ghost use Rattle.yw_state.specs.Identity.{Ident, strictly_under};
ghost use Rattle.yw_state.specs.Map.{entries, get, insert, lexical, update};
ghost use Rattle.yw_state.specs.State.{Site, Sites, bare, bare_but, drop, drop_all, sites_of_entries};

/// Where all under some identities is dropped, a look-up under one of them answers nothing, and each other answers as before.
pub fn dropping_answers()
    ensures { (m : Sites) (js : List Ident) (q : Ident) → get (drop_all m js) q ≡ cond (under_any q js) None (get m q) }
{}

/// Where no two entries stand at one identity, one of the map passes exactly where one of the list does, in whatever order the list is.
pub fn some_entry_passes()
    ensures { (p : Entry → Bool) (es : Entries) → Unique es → list_any p (entries (sites_of_entries es)) ≡ list_any p es }
{}

/// Where a part goes from the entries, all under its identity is dropped from the map.
pub fn part_goes()
    ensures { (i : Ident) (old es fs : Entries) → Swaps i old [] es fs → AllUnder i old → sites_of_entries fs ≡ drop (sites_of_entries es) i }
{}

/// Where a part's own site is another and what is below it stays, the map is changed at its identity alone.
pub fn own_site_changes()
    ensures { (i : Ident) (x : Site) (h : Site → Site) (below es fs : Entries)
        → Swaps i ((i, x) ∷ below) ((i, h x) ∷ below) es fs → AllUnder i below → sites_of_entries fs ≡ update (sites_of_entries es) i h }
{}

/// Where what is below a part goes, and its net, the map is laid bare there.
pub fn part_is_bared()
    ensures { (i : Ident) (x : Site) (below es fs : Entries)
        → Swaps i ((i, x) ∷ below) ((i, record x { net = None }) ∷ []) es fs → AllUnder i below → sites_of_entries fs ≡ bare (sites_of_entries es) i }
{}

/// Where one value comes below a part, at an identity at which nothing stood, the map is given it there.
pub fn value_comes_below()
    ensures { (i k : Ident) (x v : Site) (below es fs : Entries)
        → Swaps i ((i, x) ∷ below) ((i, x) ∷ (below ++ ((k, v) ∷ []))) es fs → AllUnder i below
        → IsTrue (strictly_under k i) → get (sites_of_entries es) k ≡ None → sites_of_entries fs ≡ insert (sites_of_entries es) k v }
{}

/// Where all that is below a part goes but for one entry behind the others, and its net, the map is laid bare there but for that.
pub fn part_is_bared_but()
    ensures { (i r : Ident) (x v : Site) (below es fs : Entries)
        → Swaps i ((i, x) ∷ (below ++ ((r, v) ∷ []))) ((i, record x { net = None }) ∷ ((r, v) ∷ [])) es fs
        → AllUnder i (below ++ ((r, v) ∷ [])) → IsTrue (strictly_under r i) → find lexical r below ≡ None
        → sites_of_entries fs ≡ bare_but (sites_of_entries es) i r }
{}
