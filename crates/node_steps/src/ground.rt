//! What the parts of a tick see of a node.
ghost use Rattle.std.specs.Prelude.{◌≡◌, is_some, IfSome};
ghost use Rattle.node_rules.specs.Facts.{view_key};
ghost use Rattle.node_view.specs.Views.{IsViewOf};

use cluster_types::{ClusterKey, NodeId, NodeList, Role};
use clustering::Agree;
use heartbeat::Adjacency;
use node_view::View;
use record_store::RecordStore;
use std::marker::Model;

/// A node's parts, of which some may be planned ones.
#[derive(Drop)]
pub struct Ground<'a> {
    pub me: NodeId,
    pub peers: &'a NodeList,
    pub factor: u8,
    pub role: Role,
    pub hearing: &'a Adjacency,
    pub agree: &'a Agree,
    pub view: Option<&'a View>,
    pub store: &'a RecordStore,
}

impl<'a> Model for Ground<'a> {
    ghost use Rattle.node_rules.specs.Codes.{facts_codes};
    ghost use Rattle.node_rules.specs.Facts.{Facts};

    ghost Value = { Facts };

    ghost coded = { Prim.hlevel facts_codes };

    ghost use Rattle.node_steps.specs.Grounds.{AgreesOnGround, ground_facts};

    ghost view = { ground_facts };

    ghost invariant = { AgreesOnGround };
}

impl<'a> Ground<'a> {
    /// The key of the view, or `NONE`.
    pub fn view_key(&self) -> ClusterKey
        ensures { result ≡ view_key self.now }
    {
        match self.view {
            None => ClusterKey::NONE,
            Some(view) => view.key(),
        }
    }

    /// The view, once its exchange is finished.
    pub fn exchanged(&self) -> Option<&'a View>
        ensures some { is_some result ≡ self.now.exchange.exchanged }
        ensures view { IfSome result (λ v. IsViewOf self.now v.now) }
    {
        let view = self.view?;
        if view.has_exchanged() {
            Some(view)
        } else {
            None
        }
    }
}
