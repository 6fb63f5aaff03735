//! Laws of the definitions, for every value. They call nothing.

ghost use Rattle.std.specs.Prelude.{◌≡◌, ◌↔◌, ◌∷◌, ◌++◌, [], ℕ, length, List, Option, Some};
ghost use Rattle.std.specs.List.{AllByRecursion};
ghost use Rattle.toml.specs.Data.{Data};
ghost use Rattle.nextest_config_values.specs.Read.{made_of};
ghost use Rattle.nextest_config_elements.specs.LeakTimeout.{leak_timeout_fields, leak_timeout_reading};
ghost use Rattle.nextest_config_elements.specs.MaxFail.{fail_fast_fields, fail_fast_reading};
ghost use Rattle.nextest_config_elements.specs.Readers.{reader_of};
ghost use Rattle.nextest_config_elements.specs.RetryPolicy.{open_fields, retry_policy_reading};
ghost use Rattle.nextest_config_elements.specs.SlowTimeout.{slow_timeout_fields, slow_timeout_reading};
ghost use Rattle.nextest_config_elements.specs.declared.field.Shape.{Shape};
ghost use Rattle.nextest_config_profiles.specs.AbsentKeys.{TakesDefaults};
ghost use Rattle.nextest_config_profiles.specs.Alike.{AreTakenAlike, given_by, given_value, TakesAlike};
ghost use Rattle.nextest_config_profiles.specs.Chain.{IsChain, IsWrong, Wrong};
ghost use Rattle.nextest_config_profiles.specs.Effective.{IsEffective};
ghost use Rattle.nextest_config_profiles.specs.Merged.{IsLeaf, Layers};
ghost use Rattle.nextest_config_profiles.specs.OneLeaf.{AreApart, HasLeafAlone};
ghost use Rattle.nextest_config_profiles.specs.OwnValues.{IsSetAsListed};
ghost use Rattle.nextest_config_profiles.specs.Report.Setting.{all_settings};
ghost use Rattle.nextest_config_profiles.specs.Said.{leaf, Path, said_at, silent};
ghost use Rattle.nextest_config_profiles.specs.declared.effective.Effective.{Effective};

use nextest_config_elements::global_timeout::GlobalTimeout;
use nextest_config_elements::profile_setting::ProfileSetting;
use nextest_config_values::read::FromToml;

/// Layers have at most one leaf at a path, by one of them.
pub fn law_leaf_once()
    ensures { (layers : Layers) (path : Path) (p q : ℕ) (v w : Data) → IsLeaf layers path p v
        → IsLeaf layers path q w → (p ≡ q) × (v ≡ w) }
{}

/// A profile has at most one chain.
pub fn law_chain_once()
    ensures { (layers : Layers) (name : List ℕ) (c d : List (List ℕ)) → IsChain layers name c
        → IsChain layers name d → c ≡ d }
{}

/// No name has both a chain and something that is wrong with it.
pub fn law_chain_or_wrong()
    ensures { (layers : Layers) (name : List ℕ) (chain : List (List ℕ)) (wrong : Wrong)
        → IsChain layers name chain → IsWrong layers name wrong → ⊥ }
{}

/// A chain gives a setting at most one value, of one profile, where its reader takes tables alike
/// whose keys stand in another order.
pub fn law_effective_once<T: ProfileSetting>()
    ensures value { (layers : Layers) (keys : Path) (chain : List (List ℕ)) (a b : Effective T)
        → TakesAlike T.reading → IsEffective T.seen T.reading layers keys chain a
        → IsEffective T.seen T.reading layers keys chain b
        → given_value T.seen a ≡ given_value T.seen b }
    ensures profile { (layers : Layers) (keys : Path) (chain : List (List ℕ)) (a b : Effective T)
        → TakesAlike T.reading → IsEffective T.seen T.reading layers keys chain a
        → IsEffective T.seen T.reading layers keys chain b → given_by a ≡ given_by b }
{}

/// The readers of all settings take tables alike whose keys stand in another order.
pub fn law_settings_take_alike()
    ensures shapes { (shape : Shape) → AreTakenAlike (reader_of shape) }
    ensures global_timeout { TakesAlike (made_of Some ⟦<GlobalTimeout as FromToml>⟧.reading) }
    ensures texts { TakesAlike (made_of Some ⟦<String as FromToml>⟧.reading) }
{}

/// What is told as taken for a key that the table of a setting lacks is what its reader takes: the
/// table means the same with this value put in. Of `retries` that holds under either backoff.
pub fn law_absent_key_is_default()
    ensures retries { TakesDefaults retry_policy_reading open_fields }
    ensures fail_fast { TakesDefaults fail_fast_reading fail_fast_fields }
    ensures slow_timeout { TakesDefaults slow_timeout_reading slow_timeout_fields }
    ensures leak_timeout { TakesDefaults leak_timeout_reading leak_timeout_fields }
{}

/// What nextest sets itself, below all files, has for each setting what the table of keys says is
/// set there, if anything. Where it is a table, its `period` is that.
pub fn law_defaults_as_told()
    ensures { AllByRecursion IsSetAsListed all_settings }
{}

/// Layers that say nothing of a path change nothing there. So what no file names is what nextest
/// sets itself.
pub fn law_silent_layers()
    ensures { (layers above : Layers) (path : Path)
        → AllByRecursion (λ layer. said_at path layer ≡ silent) above
        → (p : ℕ) (v : Data) → IsLeaf (layers ++ above) path p v ↔ IsLeaf layers path p v }
{}

/// A layer on top that has a value at a path, which is no table, gives the path this value, by this
/// layer. It takes away the leaves below the path, and those that lead to it. Where it has nothing
/// else, it changes no other leaf.
pub fn law_layer_on_top()
    ensures here { (layers : Layers) (top : Option Data) (path : Path) (value : Data)
        → said_at path top ≡ leaf value
        → IsLeaf (layers ++ top ∷ []) path (length layers) value }
    ensures below { (layers : Layers) (top : Option Data) (path : Path) (value : Data)
        → said_at path top ≡ leaf value → (key : List ℕ) (below : Path) (p : ℕ) (v : Data)
        → IsLeaf (layers ++ top ∷ []) (path ++ key ∷ below) p v → ⊥ }
    ensures above { (layers : Layers) (top : Option Data) (path : Path) (value : Data)
        (key : List ℕ) (below : Path) → said_at (path ++ key ∷ below) top ≡ leaf value
        → (p : ℕ) (v : Data) → IsLeaf (layers ++ top ∷ []) path p v → ⊥ }
    ensures others { (layers : Layers) (top : Data) (path other : Path) → HasLeafAlone top path
        → AreApart path other → (p : ℕ) (v : Data)
        → IsLeaf (layers ++ Some top ∷ []) other p v ↔ IsLeaf layers other p v }
{}
