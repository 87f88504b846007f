//! Theorems about all texts. No function here has code.

ghost use Rattle.std.specs.Prelude.{◌≡◌, ◌↔◌, ℕ, List, Some};
ghost use Rattle.fabric_model.specs.declared.node.Side.TheVariants.{End, To};
ghost use Rattle.fabric_model.specs.declared.node.Spot.{Spot};
ghost use Rattle.fabric_model.specs.Fabric.{FabricOf, IsFabric, cable_of, side_of};
ghost use Rattle.fabric_read_topology.specs.declared.cause.FabricCause.{FabricCause};
ghost use Rattle.fabric_read_topology.specs.Fabrics.{IsFabricText, IsFault};

/// Proves that no bytes are the text of two fabrics.
pub fn one_fabric()
    ensures { (bytes : List ℕ) (fabric other : FabricOf) → IsFabricText bytes fabric →
        IsFabricText bytes other → fabric ≡ other }
{}

/// Proves that bytes that are the text of a fabric have no error.
pub fn no_fault_in_text()
    ensures { (bytes : List ℕ) (fabric : FabricOf) (line : ℕ) (cause : FabricCause) →
        IsFabricText bytes fabric → ¬ IsFault bytes line cause }
{}

/// Proves that no bytes have two first errors.
pub fn one_fault()
    ensures { (bytes : List ℕ) (line other : ℕ) (cause second : FabricCause) → IsFault bytes line cause →
        IsFault bytes other second → (line ≡ other) × (cause ≡ second) }
{}

/// Proves that the fabric of a text is one: its parts fit together. So all that is proved of fabrics holds of it.
pub fn a_text_is_of_a_fabric()
    ensures { (bytes : List ℕ) (fabric : FabricOf) → IsFabricText bytes fabric → IsFabric fabric }
{}

/// Proves that each link has two ends: in the fabric of a text, a port leads to another one if and only if that one
/// leads back to it, and to an end port if and only if the end port is cabled to it.
pub fn links_have_two_ends()
    ensures links { (bytes : List ℕ) (fabric : FabricOf) (switch port other far : ℕ) → IsFabricText bytes fabric
        → ((side_of fabric switch port ≡ To other far) ↔ (side_of fabric other far ≡ To switch port)) }
    ensures cables { (bytes : List ℕ) (fabric : FabricOf) (spot : Spot) (end : ℕ) → IsFabricText bytes fabric
        → ((side_of fabric spot.switch spot.port ≡ End end) ↔ (cable_of fabric end ≡ Some spot)) }
{}
