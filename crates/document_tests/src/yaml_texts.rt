//! Texts of the YAML profile and others, with what YAML 1.2.2 and the profile's words make of them.

use crate::yaml_tables::expect_read;

/// Texts of the profile.
const PROFILE_TEXTS: &str = " =>\u{20}
a: 1¶---¶- b¶ => {a=1;}.[b;].
a: >-¶  one¶  two¶¶  three¶b: |+¶  x¶¶ => {a=\"one two\\nthree\";b=\"x\\n\\n\";}.
'it''s' => \"it's\".
a: 1\r¶b: 2\r¶ => {a=1;b=2;}.
\u{feff}a: 1 => {a=1;}.
# c¶a: 1 # d¶  # e¶b: # f¶- x # g¶ => {a=1;b=[x;];}.
a:¶- b¶- c¶d: e¶ => {a=[b;c;];d=e;}.
- - - a¶    - b¶  - c¶- d¶ => [[[a;b;];c;];d;].
- a: b¶  c: d¶- e: f¶ => [{a=b;c=d;};{e=f;};].
'a' : 1¶\"b\": 2¶c : 3¶ => {a=1;b=2;c=3;}.
a:¶b:¶- ¶-¶c:¶ => {a=;b=[;;];c=;}.
|¶x¶ y¶ => \"x\\n y\\n\".
|-¶x¶ => \"x\".
|+¶x¶¶¶ => \"x\\n\\n\\n\".
>¶x¶y¶ => \"x y\\n\".
a: |¶  x¶...¶b: 1¶ => {a=\"x\\n\";}.{b=1;}.
a: |¶  x => {a=\"x\\n\";}.
a: |¶b: 1¶ => {a=\"\";b=1;}.
a: |+¶¶¶b: 1¶ => {a=\"\\n\\n\";b=1;}.
a: |¶¶  x¶¶  y¶ => {a=\"\\nx\\n\\ny\\n\";}.
a: |¶  \tx¶ => {a=\"\\tx\\n\";}.
- |¶  x¶  # y¶# z¶- a¶ => [\"x\\n# y\\n\";a;].
a: [b, 'c', \"d\",]¶ => {a=[b;\"c\";\"d\";];}.
a: [ ]¶b: {}¶c: [ x , y ] # z¶ => {a=[];b={};c=[x;y;];}.
[a b, c] => [a b;c;].
a: \"x\\n\\t\\\\\\\"y\"¶ => {a=\"x\\n\\t\\\"y\";}.
a: http://x¶ => {a=http://x;}.
a: -1¶b: ?x¶c: :y¶ => {a=-1;b=?x;c=:y;}.
---¶---¶a¶...¶...¶ => a.
--- # c¶a: b¶ => {a=b;}.
---a: b¶ => {---a=b;}.
a: 'x # y' # z¶ => {a=\"x # y\";}.
a:   ¶  b: c¶ => {a={b=c;};}.
a:¶  - b:¶      c¶ => {a=[{b=c;};];}.
  a: 1¶  b: 2¶ => {a=1;b=2;}.
a: ~¶~: b¶null: c¶ => {a=~;~=b;null=c;}.
-¶  a: b¶ => [{a=b;};].
- # c¶- a¶ => [;a;].
a: >¶  x¶¶¶  y¶¶ => {a=\"x\\n\\ny\\n\";}.
a¶ => a.
¶ ¶\t¶ =>\u{20}
a: |¶   x¶  ¶   y¶ => {a=\"x\\n\\ny\\n\";}.
@targets¶ => {apiVersion=openslo/v1;\
kind=AlertNotificationTarget;metadata={name=on-call;};spec={target=pager;};}\
.{apiVersion=openslo/v1;kind=AlertNotificationTarget;metadata={name=desk;};spec={target=ticket;};}.
@shop¶ => {apiVersion=openslo/v1;\
kind=Service;metadata={name=shop;displayName=Shop front;};spec={description=The public shop.;};}\
.{apiVersion=openslo/v1;kind=SLI;metadata={name=shop-good;};spec={ratioMetric={counter=true;\
good={metricSource={type=Prometheus;spec={query=\"sum(http_requests{code!~\"5..\"})\\n\";};};};\
total={metricSource={type=Prometheus;spec={query=sum(http_requests);};};};};};}\
.{apiVersion=openslo/v1;kind=AlertCondition;metadata={name=fast-burn;};spec={severity=page;\
condition={kind=burnrate;op=gt;threshold=2;lookbackWindow=1h;alertAfter=5m;};};}\
.{apiVersion=openslo/v1;kind=AlertPolicy;metadata={name=shop-alerts;};\
spec={alertWhenBreaching=true;alertWhenResolved=true;conditions=[{conditionRef=fast-burn;};];\
notificationTargets=[{targetRef=on-call;};{targetRef=desk;};];};}.{apiVersion=openslo/v1;\
kind=SLO;metadata={name=shop-slo;};spec={service=shop;indicatorRef=shop-good;\
timeWindow=[{duration=30d;isRolling=true;};];budgetingMethod=Occurrences;\
objectives=[{displayName=Availability;target=0.999;};];\
alertPolicies=[{alertPolicyRef=shop-alerts;};workbook-page;];};}.
k:¶ k:¶  k:¶   k:¶    k:¶     k:¶      k:¶       k:¶        k:¶         k:¶          k:\
¶           k:¶            k:¶             k:¶              k:¶               k:¶                \
k:¶                 k:¶                  k:¶                   k:¶                    k:\
¶                     k:¶                      k:¶                       k:\
¶                        k:¶                         k:¶                          k:\
¶                           k:¶                            k:¶                             k:\
¶                              k:¶                               k:¶ => {k={k={k={k={k={k={k={k=\
{k={k={k={k={k={k={k={k={k={k={k={k={k={k={k={k={k={k={k={k={k={k={k={k=;};};};};};};};};};};};};\
};};};};};};};};};};};};};};};};};};};}.";

#[test]
fn texts_of_the_profile(rt: HostRuntime) {
    expect_read(&rt, rt.alloc(), PROFILE_TEXTS);
}

/// Texts that are none, each with the line and the row that are named.
const OTHER_TEXTS: &str = "a: 1¶a: 2¶ => 2 DuplicateKey
a: 1¶\tb: 2¶ => 2 Tab
a:¶    b: 1¶  c: 2¶ => 3 Indent
a: b: c¶ => 1 Colon
a: [b, [c]]¶ => 1 LeftOut
a: 'b¶ => 1 Quote
a: \"\\q\"¶ => 1 Escape
a: \u{1}¶ => 1 Control
a: b\rc¶ => 1 Control
a: |¶  x¶  \u{7f}¶ => 3 Control
-\ta¶ => 1 Tab
-\t¶ => 1 Tab
\t# c¶ => 1 Tab
- a¶-  \t- b¶ => 2 Tab
a: &b c¶ => 1 LeftOut
a: *b¶ => 1 LeftOut
%YAML 1.2¶ => 1 LeftOut
? a¶ => 1 LeftOut
a: {b: c}¶ => 1 LeftOut
a: { }¶ => 1 LeftOut
--- a¶ => 1 LeftOut
---\t¶ => 1 LeftOut
a: |2¶ => 1 LeftOut
a: >¶  x¶   y¶ => 3 LeftOut
a: >¶  x¶  \ty¶ => 3 Tab
a: 1¶ b: 2¶ => 2 Indent
a¶b¶ => 2 Indent
- a¶ b¶ => 2 Indent
a: 'b' c¶ => 1 Quote
a: \"b¶ => 1 Quote
\"a\"\t: b¶ => 1 Quote
a: [\"b\" c]¶ => 1 Quote
a: \"\\x\" ¶ => 1 Escape
a: [b¶ => 1 FlowForm
a: [b,,c]¶ => 1 FlowForm
a: ]¶ => 1 FlowForm
a: [b] c¶ => 1 FlowForm
[a: b]¶ => 1 FlowForm
a: [- b]¶ => 1 FlowForm
a: 1¶b¶ => 2 Colon
- a¶b: 1¶ => 2 Colon
a: 1¶- b¶ => 2 Colon
a:: b¶ => 1 Colon
a: b#c: d¶ => 1 Colon
: a¶ => 1 Colon
a: |x¶ => 1 Colon
a: 1¶'a': 2¶ => 2 DuplicateKey
a: |¶    x¶  # c¶    y¶ => 4 Indent
- - - - - - - - - - - - - - - - - - - - - - - - - - - - - - - - - a¶ => 1 TooDeep
k:¶ k:¶  k:¶   k:¶    k:¶     k:¶      k:¶       k:¶        k:¶         k:¶          k:\
¶           k:¶            k:¶             k:¶              k:¶               k:¶                \
k:¶                 k:¶                  k:¶                   k:¶                    k:\
¶                     k:¶                      k:¶                       k:\
¶                        k:¶                         k:¶                          k:\
¶                           k:¶                            k:¶                             k:\
¶                              k:¶                               k:\
¶                                k:¶ => 33 TooDeep";

#[test]
fn texts_that_are_none(rt: HostRuntime) {
    expect_read(&rt, rt.alloc(), OTHER_TEXTS);
}
