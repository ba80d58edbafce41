//! What the reading of one-line lists comes to.

ghost use Rattle.std.specs.Prelude.{◌≡◌, List, ◌∷◌, ℕ, Option, None, ◌↔◌};
ghost use Rattle.yaml_terms.specs.Tree.{Tree, sequence, trees};
ghost use Rattle.yaml_terms.specs.Mark.{value};
ghost use Rattle.yaml_terms.specs.Flow.{flow, flow_start};
ghost use Rattle.yaml_terms.specs.FlowList.{IsFlowList, EndsWell};
ghost use Rattle.yaml_terms.specs.FlowFaults.{HasListFault};
ghost use Rattle.yaml_terms.specs.Line.{inline_value, one_mark};
ghost use Rattle.yaml_terms.specs.declared.ProfileFault.{ProfileFault};

/// A value that begins with `[` is taken exactly where a one-line list in YAML's words stands there
/// (YAML 1.2.2, section 7.4.1), and it is then the list of its items.
pub fn one_line_lists()
    ensures read { (line : List ℕ) (items : List Tree) → IsFlowList line items
        ↔ EndsWell (flow flow_start line) items }
    ensures taken { (column : ℕ) (line : List ℕ) (items : List Tree) → IsFlowList line items
        → inline_value column (91 ∷ line) ≡ one_mark (value column (sequence (trees items))) None }
    ensures only { (column : ℕ) (line : List ℕ) → (inline_value column (91 ∷ line)).fault ≡ None
        → (items : List Tree) × IsFlowList line items }
{}

/// A value that begins with `[` has the earliest fault of its items and its end, and none where it
/// is a list: each text has one fault, or none.
pub fn faults_of_one_line_lists()
    ensures met { (column : ℕ) (line : List ℕ)
        → HasListFault line (inline_value column (91 ∷ line)).fault }
    ensures one { (line : List ℕ) (a b : Option ProfileFault) → HasListFault line a
        → HasListFault line b
        → a ≡ b }
{}
