//! The services of a server.

ghost use Rattle.std.specs.Prelude.{◌≡◌, ◌++◌, ◌∷◌, ◌↔◌, [], IsTrue, IsSome, IfOk};
ghost use Rattle.std.specs.Prelude.{OnOk, OnErr, IsErrOf, MatchResult, None, Some};
ghost use Rattle.ua_nodes.specs.Set.{after_set, after_set_at, set_refusal};
ghost use Rattle.ua_nodes.specs.Table.{node_id_at, node_at, variable_of};
ghost use Rattle.ua_nodes.specs.Sound.{AreNodesSound, is_sound_node};
ghost use Rattle.ua_nodes.specs.declared.fault.InsertFault.TheVariants as insert_fault;
ghost use Rattle.ua_services.specs.Response.{response};
ghost use Rattle.ua_server.specs.Answer.{fault_of, answer};
ghost use Rattle.ua_server.specs.Endpoint.{IsEndpointEncodable};
ghost use Rattle.ua_server.specs.Served.{session_in};
ghost use Rattle.ua_server.specs.State.{fresh, begun, setting_refusal, with_memory_limit, with_nodes, with_session};

use crate::endpoint::Endpoint;
use crate::session::{Session, SessionSlot};
use std::alloc::{AllocError, Global};
use std::marker::Model;
use std::mem;
use ua_builtin::{DateTime, NodeId, StatusCode};
use ua_nodes::{InsertFault, Node, NodeTable, Reading, SetFault, a_node_is_sound_where_it_passes};
use ua_services::{Request, Response, ServiceFault};

/// The state of a server, and how it answers: its nodes, its endpoint, how many sessions it made,
/// and at most one session.
#[derive(Debug)]
pub struct Services {
    pub(crate) nodes: NodeTable,
    pub(crate) endpoint: Endpoint,
    /// The most bytes of memory that Writes may make the values of the nodes take.
    pub(crate) memory_limit: Option<usize>,
    /// How many sessions were made.
    pub(crate) made: u32,
    pub(crate) session: Option<Session>,
}

// By hand, so that a function that lets services go calls this, and proves nothing of what lies in
// them.
impl Drop for Services {
    fn drop(self) {
        let Services {
            nodes,
            endpoint,
            memory_limit: _,
            made: _,
            session: _,
        } = self;
        drop(nodes);
        drop(endpoint);
    }
}

impl Model for Services {
    ghost use Rattle.std.specs.Coded.{codes};
    ghost use Rattle.ua_nodes.specs.Sound.{AreNodesSound};
    ghost use Rattle.ua_nodes.specs.contracts.node.NodeValue as value;
    ghost use Rattle.ua_server.specs.Endpoint.{IsEndpointEncodable};
    ghost use Rattle.ua_server.specs.State.{State};

    ghost Value = { State };

    ghost coded = { Prim.hlevel (codes, value.the_row.coded) };

    ghost view = { λ s. record {
      nodes = s.nodes;
      endpoint = s.endpoint;
      memory_limit = s.memory_limit;
      made = s.made;
      session = s.session;
    } };

    ghost invariant = { λ s. AreNodesSound s.nodes × IsEndpointEncodable s.endpoint };
}

impl Services {
    /// The services over these nodes, under this endpoint, before any session. Allocates nothing.
    pub fn new(nodes: NodeTable, endpoint: Endpoint) -> Services
        requires sound { AreNodesSound nodes }
        requires fits { IsEndpointEncodable endpoint }
        ensures { result ≡ fresh nodes endpoint }
    {
        Services {
            nodes,
            endpoint,
            memory_limit: None,
            made: 0,
            session: None,
        }
    }

    /// The same services with a limit of memory: a Write does not store a value with which the
    /// values of all nodes would take more than `most` bytes, as
    /// [`NodeTable::write_items_within`] counts them, and answers BadOutOfMemory for its item.
    /// Allocates nothing.
    pub fn with_memory_limit(mut self, most: usize) -> Services
        ensures { result ≡ with_memory_limit self most }
    {
        self.memory_limit = Some(most);
        self
    }

    /// A connection begins: ends the session, if there is one. Allocates nothing.
    pub fn begin(&mut self)
        ensures { self.new ≡ begun self.old }
    {
        self.session = None;
    }

    /// The nodes as they are.
    pub fn nodes(&self) -> &NodeTable
        ensures is { result.now ≡ self.now.nodes }
        ensures sound { AreNodesSound result.now }
    {
        &self.nodes
    }

    /// Sets what the node of a NodeId holds, as [`NodeTable::set`]. Allocates nothing.
    pub fn set(&mut self, id: &NodeId, reading: Reading) -> Result<(), SetFault>
        ensures state { self.new ≡ with_nodes self.old (after_set id.now reading self.old.nodes) }
        ensures answer { MatchResult result (λ _. set_refusal (node_at self.old.nodes id.now) reading ≡ None)
            (λ fault. set_refusal (node_at self.old.nodes id.now) reading ≡ Some fault) }
        ensures kept { OnErr result (self.new ≡ self.old) }
    {
        self.nodes.set(id, reading)
    }

    /// Sets what the node at a position holds, as [`NodeTable::set_at`]. Allocates nothing.
    pub fn set_at(&mut self, index: usize, reading: Reading) -> Result<(), SetFault>
        ensures state { self.new ≡ with_nodes self.old
            (after_set_at (node_id_at self.old.nodes index) reading self.old.nodes) }
        ensures answer { MatchResult result (λ _. setting_refusal self.old.nodes index reading ≡ None)
            (λ fault. setting_refusal self.old.nodes index reading ≡ Some fault) }
        ensures kept { OnErr result (self.new ≡ self.old) }
    {
        self.nodes.set_at(index, reading)
    }

    /// Adds a node after the others, as [`NodeTable::insert`]. [`Node::is_sound`] tests its
    /// precondition.
    pub fn insert(&mut self, node: Node) -> Result<(), InsertFault>
        requires sound { IsTrue (is_sound_node node.id (variable_of node)) }
        ensures state { OnOk result
            (self.new ≡ with_nodes self.old (self.old.nodes ++ (node.id, variable_of node) ∷ [])) }
        ensures duplicate { IsErrOf result insert_fault.Duplicate ↔ IsSome (node_at self.old.nodes node.id) }
        ensures kept { OnErr result (self.new ≡ self.old) }
    {
        a_node_is_sound_where_it_passes();
        self.nodes.insert(node)
    }

    /// Exchanges the session of the services with that of the slot; either may be empty. Allocates
    /// nothing.
    pub(crate) fn swap_session(&mut self, slot: &mut SessionSlot)
        ensures services { self.new ≡ with_session self.old (session_in slot.old) }
        ensures slot { session_in slot.new ≡ self.old.session }
    {
        mem::swap(&mut self.session, &mut slot.session);
    }

    /// A ServiceFault with this code, at this timestamp, that answers the request with this
    /// RequestHandle (OPC 10000-4, 7.35). Allocates nothing.
    #[tactic(auto, using(crate::proofs::Answered::fault_fits))]
    pub fn fault(&self, request_handle: u32, code: StatusCode, moment: DateTime) -> Response
        ensures value { result ≡ fault_of request_handle code.code moment }
        ensures encodable { IsTrue (response.encodable result) }
    {
        Response::ServiceFault(ServiceFault::new(moment, request_handle, code))
    }

    /// The response to a request at a timestamp. All memory is allocated before anything changes,
    /// so an allocation that fails leaves everything as it was.
    pub fn answer(
        &mut self,
        alloc: Global,
        request: Request,
        moment: DateTime,
    ) -> Result<Response, AllocError>
        ensures response { IfOk result (λ r. r ≡ (answer self.old moment request).1) }
        ensures state { IfOk result (λ r. self.new ≡ (answer self.old moment request).0) }
        ensures kept { OnErr result (self.new ≡ self.old) }
        ensures encodable { IfOk result (λ r. IsTrue (response.encodable r)) }
    {
        let mut request = request;
        let response = self.respond(alloc, &mut request, moment);
        drop(request);
        response
    }

    /// The response to a request, from which it takes out what the response or the nodes are to
    /// hold.
    #[tactic(auto, using(crate::proofs::Answered::kept_by))]
    pub(crate) fn respond(
        &mut self,
        alloc: Global,
        request: &mut Request,
        moment: DateTime,
    ) -> Result<Response, AllocError>
        ensures response { IfOk result (λ r. r ≡ (answer self.old moment request.old).1) }
        ensures state { IfOk result (λ r. self.new ≡ (answer self.old moment request.old).0) }
        ensures kept { OnErr result (self.new ≡ self.old) }
        ensures encodable { IfOk result (λ r. IsTrue (response.encodable r)) }
    {
        match request {
            Request::GetEndpoints(message) => self.get_endpoints(alloc, message, moment),
            Request::CreateSession(message) => self.create_session(alloc, message, moment),
            Request::ActivateSession(message) => self.activate_session(alloc, message, moment),
            Request::CloseSession(message) => Ok(self.close_session(message, moment)),
            Request::Read(message) => self.read(alloc, message, moment),
            Request::Write(message) => self.write(alloc, message, moment),
        }
    }
}
